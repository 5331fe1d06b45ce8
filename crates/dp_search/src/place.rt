/// A place where a branch may stand: an unassigned class of an agent.
///
/// `weight` is the sum of the upper weights of the joint classes that the class takes part in, and
/// `spread` the bound of the front less the least bound after an action for the class, at the same stage.
#[derive(Clone, Copy, Debug, PartialEq, Eq)]
pub struct Place {
    pub agent: u32,
    pub class: u32,
    pub weight: i128,
    pub spread: u128,
}
