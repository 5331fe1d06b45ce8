//! Models that are made from a seed.
ghost use Rattle.std.specs.Prelude.{◌≡◌, ◌≤◌, ◌*◌, ◌^◌, IfErr, IfOk, IsTrue, None, OnOk, Some};
ghost use Rattle.dp_spec.specs.Model.{IsModel};
ghost use Rattle.dp_model.specs.declared.limit.TooLarge.{TooLarge};
ghost use Rattle.dp_writer.specs.Draws.{seed_stream};
ghost use Rattle.dp_writer.specs.MadeModel.{IsMakeSize, cells_made, made_model, made_passed, scales_made};
ghost use Rattle.dp_writer.specs.MadeSizes.{AreJointSizes};
ghost use Rattle.dp_writer.specs.Writable.{is_writable};

use crate::draws::{chances_drawn, rewards_drawn};
use crate::sizes::{JointSizes, sizes_within_limits};
use crate::{MakeFault, MakeSize};
use dp_base::Memory;
use dp_model::{Cells, Model, Names, Sequence, Sizes};
use dp_spec::Scales;
use rand_core::Rng;
use rand_pcg::Lcg128Xsl64;
use std::alloc::Global;

/// The model that is made of these sizes by the words of a seed. Each agent has as many actions, and as many
/// observations; all lists of names are counts, the start is uniform, and there is no discount. A word is one of
/// 64 bits of the generator PCG XSL RR 128/64 (O'Neill 2014), which starts at the seed, in its stream 0.
///
/// For each joint action and each state, in order, three words `x`, `y` and `z` draw the chances of the next
/// state, over 100: `q = 1 + z % 99` for state `x % S`, to which `100 - q` for state `y % S` is added. Then for
/// each joint action and each next state the same is drawn for the joint observations. Then for each joint action
/// and each state one word `x` draws the reward `x % 201 - 100` of all that may follow.
///
/// The model can be written: its chances are decimals. Each size is from 1 to 65,536. The limits from `Agents` to
/// `RewardCells` are tried in order, and the first that is passed is answered with its count.
pub fn make_model(alloc: Global, seed: u64, size: MakeSize) -> Result<Model, MakeFault>
    requires { IsMakeSize size }
    ensures made { IfOk result (λ m. m ≡ made_model size (seed_stream seed)) }
    ensures is_model { IfOk result (λ m. IsModel m.model) }
    ensures writable { IfOk result (λ m. IsTrue (is_writable m.model)) }
    ensures within { OnOk result (made_passed size ≡ None) }
    ensures too_large { IfErr result (λ fault. (passed : TooLarge) → fault ≡ MakeFault.TooLarge passed →
        made_passed size ≡ Some passed) }
{
    let joint = sizes_within_limits(size).map_err(MakeFault::TooLarge)?;
    let mut rng = Lcg128Xsl64::new(u128::from(seed), 0);
    Ok(model_drawn(alloc, &mut rng, size, joint)?)
}

// The model of these sizes that the next words of a generator draw.
fn model_drawn<R: Rng>(
    alloc: Global,
    rng: &mut R,
    size: MakeSize,
    joint: JointSizes,
) -> Result<Model, Memory>
    requires size { IsMakeSize size }
    requires joint { AreJointSizes size joint }
    ensures made { IfOk result (λ m. m ≡ made_model size (R.stream rng.old)) }
    ensures is_model { IfOk result (λ m. IsModel m.model) }
    ensures writable { IfOk result (λ m. IsTrue (is_writable m.model)) }
{
    let cells = cells_drawn(alloc, rng, size.states, joint)?;
    let sizes = Sizes {
        states: size.states,
        actions: Sequence::of(vec![in alloc; size.actions; size.agents as usize]?),
        observations: Sequence::of(vec![in alloc; size.observations; size.agents as usize]?),
    };
    let names = Names::counts(alloc, size.agents)?;
    Ok(Model::build(sizes, names, scales_made(size.states), cells))
}

// The tables that the next words of a generator draw.
fn cells_drawn<R: Rng>(
    alloc: Global,
    rng: &mut R,
    states: u32,
    joint: JointSizes,
) -> Result<Cells, Memory>
    requires some_state { 1 ≤ states }
    requires some_seen { 1 ≤ joint.observations }
    requires states { states ≤ 256 }
    requires seen { joint.observations ≤ 256 }
    requires trans_cells { joint.rows * states ≤ 2 ^ 22 }
    requires obs_cells { joint.rows * joint.observations ≤ 2 ^ 22 }
    requires reward_cells { joint.rows * (states * joint.observations) ≤ 2 ^ 28 }
    ensures { IfOk result (λ cells. cells ≡ cells_made (R.stream rng.old) states joint.rows joint.observations) }
{
    let trans = chances_drawn(alloc, rng, joint.rows, states)?;
    let obs = chances_drawn(alloc, rng, joint.rows, joint.observations)?;
    let reward = rewards_drawn(alloc, rng, joint.rows, states * joint.observations)?;
    let start = vec![in alloc; 1; states as usize]?;
    Ok(Cells {
        start: Sequence::of(start),
        trans: Sequence::of(trans),
        obs: Sequence::of(obs),
        reward: Sequence::of(reward),
    })
}

// The scales of a model that is made.
fn scales_made(states: u32) -> Scales
    ensures { result ≡ scales_made states }
{
    Scales {
        start: u64::from(states),
        trans: 100,
        obs: 100,
        reward: 1,
        discount: 1,
        gain: 1,
    }
}
