//! The fronts and games of a search that were used last.
ghost use Rattle.std.specs.Prelude.{◌≡◌, ◌<◌, ℕ, Bool, IfOk, IfErr, IfSome, OnOk, option_map};
ghost use Rattle.dp_spec.specs.Model.{Model as PlainModel};
ghost use Rattle.dp_spec.specs.Steps.{root_front};
ghost use Rattle.dp_cluster.specs.KeptFronts.{IsFrontOf};
ghost use Rattle.dp_search.specs.FrontPlanners.{IsPlannerFront};
ghost use Rattle.dp_search.specs.MadeFronts.{AreMade, IsMadeFront};
ghost use Rattle.dp_search.specs.Paths.{path_front};

use crate::path::{Path, have_same_steps};
use dp_base::Memory;
use dp_cluster::Front;
use dp_game::Game;
use dp_model::Model;
use lru::LruCache;
use std::alloc::Global;
use std::rc::Rc;

// So many numbers of 16 bytes are kept at most, if there is more than one front.
const MOST_NUMBERS: u64 = 1 << 25;

// What an entry takes besides the numbers of its front and its game, in numbers.
const ENTRY: u64 = 32;

/// A front that was made.
#[derive(Drop)]
pub(crate) struct MadeFront {
    pub front: Rc<Front>,
    /// Its game, if one was made and kept.
    pub game: Option<Rc<Game>>,
    /// Whether it is known that no two of its classes can be merged.
    pub settled: bool,
}

impl MadeFront {
    /// The same, shared.
    pub(crate) fn shared(&self) -> Result<MadeFront, Memory>
        ensures front { IfOk result (λ f. f.front.value ≡ self.now.front.value) }
        ensures game { IfOk result (λ f. option_map (λ g. g.value) f.game ≡
            option_map (λ g. g.value) self.now.game) }
        ensures settled { IfOk result (λ f. f.settled ≡ self.now.settled) }
    {
        let game = match &self.game {
            None => None,
            Some(game) => Some(game.clone()?),
        };
        Ok(MadeFront {
            front: self.front.clone()?,
            game,
            settled: self.settled,
        })
    }
}

// A front that was made, with its path, and for how many numbers it counts.
#[derive(Drop)]
pub(crate) struct Entry {
    path: Rc<Path>,
    made: MadeFront,
    numbers: u64,
}

/// The root front, and by the numbers of their paths the fronts that were used last, as many as do not take
/// too much memory. A front that is not among them can be made again.
#[derive(Drop)]
pub(crate) struct MadeFronts {
    root: Rc<Front>,
    entries: LruCache<u64, Entry>,
    numbers: u64,
}

impl MadeFronts {
    /// The root front alone.
    pub(crate) fn new(alloc: Global, root: Front) -> Result<MadeFronts, Memory>
        ensures { IfOk result (λ s. (m : PlainModel) (h look : ℕ) (merging : Bool) → IsPlannerFront m h root →
            root.front ≡ root_front m → AreMade m h look merging s) }
    {
        Ok(MadeFronts {
            root: Rc::new(alloc, root)?,
            entries: LruCache::unbounded(alloc)?,
            numbers: 0,
        })
    }

    /// The root front.
    pub(crate) fn root(&self) -> Result<Rc<Front>, Memory>
        ensures of_planner { IfOk result (λ f. (m : PlainModel) (h look : ℕ) (merging : Bool) →
            AreMade m h look merging self.now → IsPlannerFront m h f.value) }
        ensures front { IfOk result (λ f. (m : PlainModel) (h look : ℕ) (merging : Bool) →
            AreMade m h look merging self.now → f.value.front ≡ root_front m) }
    {
        let root = self.root.clone()?;
        Ok(root)
    }

    /// The front that a path leads to, if it is kept.
    pub(crate) fn find(&mut self, path: &Path) -> Result<Option<MadeFront>, Memory>
        ensures found { IfOk result (λ o. IfSome o (λ f. (m : PlainModel) (h look : ℕ) (merging : Bool) →
            AreMade m h look merging self.old → IsMadeFront m h look merging (path_front m path.now) f)) }
        ensures kept { (m : PlainModel) (h look : ℕ) (merging : Bool) →
            AreMade m h look merging self.old → AreMade m h look merging self.new }
    {
        let number = path.number();
        if !self.entries.contains(&number) {
            return Ok(None);
        }
        self.entries.promote(&number);
        match self.entries.peek(&number) {
            None => Ok(None),
            Some(entry) => {
                if have_same_steps(entry.path.as_ref(), path) {
                    let made = entry.made.shared()?;
                    Ok(Some(made))
                } else {
                    Ok(None)
                }
            }
        }
    }

    /// Keeps the front that a path leads to, as the one that was used last.
    pub(crate) fn keep(
        &mut self,
        model: &Model,
        path: &Rc<Path>,
        made: MadeFront,
    ) -> Result<(), Memory>
        requires of_model { IsFrontOf model.now.model made.front.value }
        requires stage { made.front.value.front.stage < made.front.value.horizon }
        ensures kept { OnOk result ((m : PlainModel) (h look : ℕ) (merging : Bool) →
            AreMade m h look merging self.old → IsMadeFront m h look merging (path_front m path.now.value) made →
            AreMade m h look merging self.new) }
        ensures fails { IfErr result (λ _. (m : PlainModel) (h look : ℕ) (merging : Bool) →
            AreMade m h look merging self.old → AreMade m h look merging self.new) }
    {
        let numbers = numbers_of(model, &made);
        let number = path.as_ref().number();
        let entry = Entry {
            path: path.clone()?,
            made,
            numbers,
        };
        let gone = match self.entries.put(number, entry)? {
            None => 0,
            Some(old) => old.numbers,
        };
        self.numbers = self.numbers.saturating_sub(gone).saturating_add(numbers);
        self.make_room();
        Ok(())
    }

    /// Lets go of the front that a path leads to, if it is kept.
    pub(crate) fn forget(&mut self, path: &Path)
        ensures { (m : PlainModel) (h look : ℕ) (merging : Bool) →
            AreMade m h look merging self.old → AreMade m h look merging self.new }
    {
        let number = path.number();
        if let Some(old) = self.entries.pop(&number) {
            self.numbers = self.numbers.saturating_sub(old.numbers);
        }
    }

    // Lets go of the fronts that were not used for longest, until not too much is kept.
    fn make_room(&mut self)
        ensures { (m : PlainModel) (h look : ℕ) (merging : Bool) →
            AreMade m h look merging self.old → AreMade m h look merging self.new }
    {
        while self.numbers > MOST_NUMBERS && self.entries.len() > 1 {
            match self.entries.pop_lru() {
                None => return,
                Some((_, old)) => {
                    self.numbers = self.numbers.saturating_sub(old.numbers);
                }
            }
        }
    }
}

// For how many numbers a front counts: two for each weight, and a few for each joint class and for the rest. With
// its game, one more for each joint class and extended joint action.
fn numbers_of(model: &Model, made: &MadeFront) -> u64
    requires of_model { IsFrontOf model.now.model made.now.front.value }
    requires stage { made.now.front.value.front.stage < made.now.front.value.horizon }
{
    model.invariant();
    let entries = if made.game.is_some() {
        extended_actions(model)
    } else {
        0
    };
    let each = u64::from(2 * model.states() + 4).saturating_add(entries);
    (made.front.as_ref().joint_classes() as u64)
        .saturating_mul(each)
        .saturating_add(ENTRY)
}

// How many extended joint actions a model has: each agent has one of its actions or none.
fn extended_actions(model: &Model) -> u64 {
    let mut count: u64 = 1;
    for agent in 0..model.agents() {
        count = count.saturating_mul(u64::from(model.actions(agent)).saturating_add(1));
    }
    count
}
