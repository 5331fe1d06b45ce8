//! Lists of things, as a model file gives them.
ghost use Rattle.std.specs.Prelude.{◌≡◌};
ghost use Rattle.dp_meaning.specs.NameLists.{size_of};

use dp_model::NameList;

/// The agents, the states, or the actions or observations of an agent.
#[derive(Drop)]
pub enum GivenList {
    /// So many of them, which are known by their numbers.
    Counted(u32),
    /// Their names, of which there is at least one.
    Named(NameList),
}

impl GivenList {
    /// How many things the list has.
    pub fn size(&self) -> u32
        ensures { result ≡ size_of self.now }
    {
        match self {
            GivenList::Counted(count) => *count,
            GivenList::Named(names) => names.len(),
        }
    }
}
