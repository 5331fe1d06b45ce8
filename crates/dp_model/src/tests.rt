ghost use Rattle.std.specs.Prelude.{◌≡◌, ◌∷◌, [], IfOk, length};
ghost use Rattle.dp_spec.specs.Model.{joint_actions, joint_observations};
ghost use Rattle.dp_model.specs.Parts.{AreParts};

use super::*;
use dp_base::Memory;
use dp_spec::Scales;
use std::alloc::Global;
use std::test::Fail;

#[test]
fn cells_and_joint_numbers_of_two_agents(rt: HostRuntime) -> Result<(), Fail> {
    let model = two_agents(rt.alloc())?;
    let numbers = [
        model.agents(),
        model.joint_actions(),
        model.joint_action_of(&[1, 2]),
        model.joint_obs_of(&[0, 1]),
        model.local_action(4, 0),
        model.local_action(4, 1),
        model.local_obs(1, 1),
    ];
    assert_eq!(rt; numbers, [2, 6, 5, 1, 1, 1, 1]);
    assert_eq!(rt; model.reward(4, 0, 0, 1), 9);
    Ok(())
}

// Agent 0 sees one thing and agent 1 two: shorter than `h` they have `h` and `2^h - 1` own histories.
#[test]
fn horizons_of_two_agents(rt: HostRuntime) -> Result<(), Fail> {
    let model = two_agents(rt.alloc())?;
    let longest = Fit {
        horizon: 10,
        exact: true,
        unit: 1024,
    };
    let own_histories = TooLarge {
        what: Limit::OwnHistories,
        count: 2058,
    };
    let horizon = TooLarge {
        what: Limit::Horizon,
        count: 17,
    };
    assert_eq!(rt; fits(&model, 10), Ok(longest));
    assert_eq!(rt; fits(&model, 11), Err(own_histories));
    assert_eq!(rt; fits(&model, 17), Err(horizon));
    Ok(())
}

// One state, 2 and 3 actions, 1 and 2 observations, and the rewards 0 to 11.
fn two_agents(alloc: Global) -> Result<Model, Memory>
    ensures states { IfOk result (λ m. m.model.states ≡ 1) }
    ensures agents { IfOk result (λ m. length m.model.actions ≡ 2) }
    ensures views { IfOk result (λ m. length m.model.observations ≡ 2) }
    ensures joint_actions { IfOk result (λ m. joint_actions m.model ≡ 6) }
    ensures joint_observations { IfOk result (λ m. joint_observations m.model ≡ 2) }
    ensures are_actions { IfOk result (λ m. AreParts m.model.actions (1 ∷ 2 ∷ [])) }
    ensures are_observations { IfOk result (λ m. AreParts m.model.observations (0 ∷ 1 ∷ [])) }
{
    let sizes = Sizes {
        states: 1,
        actions: Sequence::of(vec![in alloc; 2, 3]?),
        observations: Sequence::of(vec![in alloc; 1, 2]?),
    };
    let scales = Scales {
        start: 1,
        trans: 1,
        obs: 2,
        reward: 1,
        discount: 1,
        gain: 1,
    };
    let cells = Cells {
        start: Sequence::of(vec![in alloc; 1]?),
        trans: Sequence::of(vec![in alloc; 1, 1, 1, 1, 1, 1]?),
        obs: Sequence::of(vec![in alloc; 1, 1, 1, 1, 1, 1, 1, 1, 1, 1, 1, 1]?),
        reward: Sequence::of(vec![in alloc; 0, 1, 2, 3, 4, 5, 6, 7, 8, 9, 10, 11]?),
    };
    let names = Names::counts(alloc, 2)?;
    Ok(Model::build(sizes, names, scales, cells))
}

#[test]
#[tactic(auto, unfolding(dp_base::specs::Names::is_name, dp_base::specs::Names::is_word, dp_base::specs::DecimalShape::is_decimal))]
fn a_name_is_added_once_and_found(rt: HostRuntime) -> Result<(), Fail> {
    let mut names = Names::counts(rt.alloc(), 1)?;
    let is_new = names.add_state(rt.alloc(), "left")?;
    let is_new_again = names.add_state(rt.alloc(), "left")?;
    assert!(rt; is_new && !is_new_again);
    assert!(rt; names.find_state("left") == Some(0));
    Ok(())
}
