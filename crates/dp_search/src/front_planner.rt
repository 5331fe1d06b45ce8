//! A planner over the fronts of a model.
ghost use Rattle.std.specs.Prelude.{◌≡◌};
ghost use Rattle.dp_search.specs.FrontPlanners.{widest};

use crate::action_worth::ActionWorth;
use crate::bounding::own_bound;
use crate::chooser::Chooser;
use crate::completion::completed;
use crate::expansion::expanded;
use crate::held_front::HeldFront;
use crate::made_fronts::MadeFronts;
use crate::making::start_at;
use crate::options::PlanOpts;
use crate::path::Path;
use crate::place::Place;
use crate::planner::{Child, Expanded, Planner};
use crate::policies::{constant_of_version, full_of_version, policy_worth};
use crate::room::SearchRoom;
use dp_base::Memory;
use dp_cluster::Front;
use dp_game::Bounder;
use dp_model::{Fit, Model};
use dp_policy::Shared;
use std::alloc::Global;
use std::rc::Rc;

/// What a planner is made of: a model, a horizon that fits it, what is asked for, the bounds, the best
/// constant policy, and a branching rule.
#[derive(Drop)]
pub(crate) struct FrontPlanner<'a, F> {
    pub model: &'a Model,
    pub fit: Fit,
    pub options: PlanOpts,
    pub bounder: &'a Bounder,
    pub best: ActionWorth,
    pub rule: &'a Chooser<F>,
}

/// The most actions of an agent of a model.
pub fn widest(model: &Model) -> u32
    ensures { result ≡ widest model.now.model.actions }
{
    model.invariant();
    let mut most = 0;
    for agent in 0..model.agents() {
        most = most.max(model.actions(agent));
    }
    most
}

impl<'a, F: Fn(&[Place]) -> usize> Planner for FrontPlanner<'a, F> {
    type Front = HeldFront;

    type Policy = Shared;

    type Room = SearchRoom;

    ghost use Rattle.dp_spec.specs.ConstantPolicy.{constant_policy};
    ghost use Rattle.dp_spec.specs.SharedPolicy.{unfolded};
    ghost use Rattle.dp_search.specs.Constants.{constant_low_worth};
    ghost use Rattle.dp_search.specs.FrontPlanners.{IsPlannerPolicy, planner_space, planner_worth, widest};
    ghost use Rattle.dp_search.specs.FrontPlanning.{IsReadyPlanner, planner_deep};
    ghost use Rattle.dp_search.specs.HeldFronts.{IsHeldFront, front_meant};
    ghost use Rattle.dp_search.specs.MadeFronts.{IsSearchRoom};
    ghost use Rattle.dp_search.specs.Rules.{MayAnswer};

    ghost IsReady = { λ p. IsReadyPlanner F.Fn p.model.now.model p.fit p.options p.bounder.now p.best
        p.rule.now.rule };

    ghost space = { λ p. planner_space p.model.now.model p.fit p.options (MayAnswer F.Fn p.rule.now) };

    ghost meaning = { λ p s. front_meant p.model.now.model s };

    ghost IsFront = { λ p s. IsHeldFront p.model.now.model p.fit.horizon p.options.look p.options.merge s };

    ghost IsPolicy = { λ p q. IsPlannerPolicy p.model.now.model p.fit.horizon p.options.version q };

    ghost IsRoom = { λ p r. IsSearchRoom p.bounder.now.is_exact p.model.now.model p.fit.horizon
        p.bounder.now.look p.options.merge r };

    ghost worth = { λ p q. planner_worth p.model.now.model p.fit q };

    ghost constants = { λ p. constant_low_worth p.fit.exact p.model.now.model p.options.version p.fit.horizon
        p.best.action };

    ghost IsBestConstant = { λ p q.
        unfolded q.rows ≡ constant_policy p.model.now.model p.fit.horizon p.best.action };

    ghost width = { λ p. widest p.model.now.model.actions };

    fn most_children(&self) -> u32 {
        widest(self.model)
    }

    fn room(&self, alloc: Global) -> Result<SearchRoom, Memory> {
        self.model.invariant();
        let root = Front::root(alloc, self.model, self.fit)?;
        Ok(SearchRoom {
            look: self.bounder.room(alloc, self.model)?,
            made: MadeFronts::new(alloc, root)?,
        })
    }

    fn best_constant(&self, alloc: Global) -> Result<Shared, Memory> {
        let version = self.options.version;
        let policy = constant_of_version(alloc, self.model, self.fit, version, self.best.action)?;
        Ok(policy)
    }

    fn low_worth(&self, alloc: Global, policy: &Shared) -> Result<i128, Memory> {
        let worth = policy_worth(alloc, self.model, self.fit, policy)?;
        Ok(worth)
    }

    fn root(&self, alloc: Global, room: &mut SearchRoom) -> Result<Child<HeldFront>, Memory> {
        let front = room.made.root()?;
        let bound = own_bound(
            alloc,
            self.model,
            self.bounder,
            front.as_ref(),
            &mut room.look,
        )?;
        let path = Rc::new(alloc, Path::Root)?;
        let held = HeldFront::of(self.model, path, front, bound);
        Ok(Child { front: held, bound })
    }

    fn is_full(&self, front: &HeldFront) -> bool {
        front.full.is_some()
    }

    fn is_wide(&self, above: u32, front: &HeldFront) -> bool {
        front.is_wide(above)
    }

    fn policy(&self, alloc: Global, front: &HeldFront) -> Result<Shared, Memory> {
        match &front.full {
            None => unreachable!(),
            Some(full) => {
                let version = self.options.version;
                let policy = full_of_version(alloc, self.model, self.fit, version, full.as_ref())?;
                Ok(policy)
            }
        }
    }

    fn completion(
        &self,
        alloc: Global,
        room: &mut SearchRoom,
        front: &HeldFront,
    ) -> Result<Option<Shared>, Memory> {
        let merging = self.options.merge;
        let start = start_at(alloc, self.model, self.bounder, merging, &front.path, room)?;
        let found = completed(
            alloc,
            self.model,
            self.bounder,
            merging,
            start.front.as_ref(),
            &mut room.look,
        )?;
        match found {
            None => Ok(None),
            Some(full) => {
                let version = self.options.version;
                let policy = full_of_version(alloc, self.model, self.fit, version, &full)?;
                Ok(Some(policy))
            }
        }
    }

    fn expand(
        &self,
        alloc: Global,
        room: &mut SearchRoom,
        front: &HeldFront,
    ) -> Result<Expanded<HeldFront>, Memory> {
        let made = expanded(
            alloc,
            self.model,
            self.bounder,
            self.options,
            self.rule,
            front,
            room,
        )?;
        Ok(made)
    }

    ghost deep = { λ p above front early narrow. planner_deep p.model.now.model p.fit p.options
        (MayAnswer F.Fn p.rule.now) above front early narrow };
}
