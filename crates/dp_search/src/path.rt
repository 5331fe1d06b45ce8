//! The paths of steps from the root front.
ghost use Rattle.std.specs.Prelude.{◌≡◌, ℕ, Bool, true, IfOk};
ghost use Rattle.dp_spec.specs.Merge.{merged_front};
ghost use Rattle.dp_spec.specs.Model.{Model as PlainModel};
ghost use Rattle.dp_spec.specs.Steps.{front_after_choice};
ghost use Rattle.dp_search.specs.Paths.{IsChoiceAt, IsMergeAt, IsPath, path_front};

use dp_base::Memory;
use std::rc::Rc;

/// An action for a class of an agent.
#[derive(Clone, Copy)]
pub(crate) struct Choice {
    pub agent: u32,
    pub class: u32,
    pub action: u32,
}

/// Two classes of an agent that can be merged.
#[derive(Clone, Copy)]
pub(crate) struct Pair {
    pub agent: u32,
    pub first: u32,
    pub second: u32,
}

/// The steps from the root front to a front, the last one outermost. Paths share what they have in common.
/// The number of a path follows from its steps, and few paths have the same one.
#[derive(Drop)]
pub(crate) enum Path {
    Root,
    Chosen {
        before: Rc<Path>,
        number: u64,
        choice: Choice,
    },
    Merged {
        before: Rc<Path>,
        number: u64,
        pair: Pair,
    },
}

impl Path {
    /// The path that goes on with a choice.
    pub(crate) fn chosen(before: &Rc<Path>, choice: Choice) -> Result<Path, Memory>
        ensures front { IfOk result (λ p. (m : PlainModel) → path_front m p ≡
            front_after_choice m (path_front m before.now.value) choice.agent choice.class choice.action) }
        ensures path { IfOk result (λ p. (m : PlainModel) (h : ℕ) (merging : Bool) →
            IsPath m h merging before.now.value → IsChoiceAt m h merging (path_front m before.now.value) choice →
            IsPath m h merging p) }
    {
        let number = number_after(
            before.as_ref().number(),
            choice.agent,
            choice.class,
            choice.action,
        );
        Ok(Path::Chosen {
            before: before.clone()?,
            number,
            choice,
        })
    }

    /// The path that goes on with a merge.
    pub(crate) fn merged(before: &Rc<Path>, pair: Pair) -> Result<Path, Memory>
        ensures front { IfOk result (λ p. (m : PlainModel) → path_front m p ≡
            merged_front (path_front m before.now.value) pair.agent pair.first pair.second) }
        ensures path { IfOk result (λ p. (m : PlainModel) (h : ℕ) (merging : Bool) →
            IsPath m h merging before.now.value → IsMergeAt m h (path_front m before.now.value) pair →
            IsPath m h merging p) }
    {
        let number = number_after(
            before.as_ref().number(),
            pair.agent,
            pair.first,
            pair.second,
        );
        Ok(Path::Merged {
            before: before.clone()?,
            number,
            pair,
        })
    }

    /// Its number.
    pub(crate) fn number(&self) -> u64 {
        match self {
            Path::Root => 0,
            Path::Chosen { number, .. } => *number,
            Path::Merged { number, .. } => *number,
        }
    }
}

// A number for the path with this number and one step more. (The multiplier is that of Knuth's MMIX generator.)
fn number_after(number: u64, one: u32, two: u32, three: u32) -> u64 {
    let mut mixed = number;
    for part in [one, two, three] {
        mixed = (mixed ^ u64::from(part)).wrapping_mul(6364136223846793005);
        mixed = mixed ^ (mixed >> 29);
    }
    mixed.wrapping_add(1442695040888963407)
}

/// Whether two paths have the same steps.
pub(crate) fn have_same_steps(one: &Path, other: &Path) -> bool
    ensures { result ≡ true → (m : PlainModel) → path_front m one.now ≡ path_front m other.now }
{
    if one.number() != other.number() {
        return false;
    }
    match one {
        Path::Root => match other {
            Path::Root => true,
            _ => false,
        },
        Path::Chosen { before, choice, .. } => match other {
            Path::Chosen {
                before: others,
                choice: theirs,
                ..
            } => is_same_choice(*choice, *theirs)
                && have_same_steps(before.as_ref(), others.as_ref()),
            _ => false,
        },
        Path::Merged { before, pair, .. } => match other {
            Path::Merged {
                before: others,
                pair: theirs,
                ..
            } => is_same_pair(*pair, *theirs) && have_same_steps(before.as_ref(), others.as_ref()),
            _ => false,
        },
    }
}

// Whether two choices are the same.
fn is_same_choice(one: Choice, other: Choice) -> bool
    ensures { result ≡ true → one ≡ other }
{
    one.agent == other.agent && one.class == other.class && one.action == other.action
}

// Whether two pairs are the same.
fn is_same_pair(one: Pair, other: Pair) -> bool
    ensures { result ≡ true → one ≡ other }
{
    one.agent == other.agent && one.first == other.first && one.second == other.second
}
