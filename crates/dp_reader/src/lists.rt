//! The lists of a header, taken apart into their sizes and their names.
ghost use Rattle.std.specs.Prelude.{◌≡◌, map, IfOk};
ghost use Rattle.dp_meaning.specs.NameLists as spec;
ghost use Rattle.dp_meaning.specs.NameLists.{size_of};

use dp_base::Memory;
use dp_meaning::GivenList;
use dp_model::{NameList, Sequence};
use std::alloc::Global;

/// How many things each of the lists has.
pub(crate) fn sizes(alloc: Global, lists: &[GivenList]) -> Result<Sequence<u32>, Memory>
    ensures { IfOk result (λ sizes. sizes ≡ map size_of lists.now) }
{
    let mut sizes = Vec::new(alloc);
    for list in lists {
        sizes.push(list.size())?;
    }
    Ok(Sequence::of(sizes))
}

/// The names of a list, of which there are none where it is given as a count. It takes no memory.
pub(crate) fn names_in(alloc: Global, list: GivenList) -> NameList
    ensures { result ≡ spec.names_in list }
{
    match list {
        GivenList::Counted(_) => NameList::new(alloc),
        GivenList::Named(names) => names,
    }
}

/// The names of each of the lists.
pub(crate) fn all_names(alloc: Global, lists: Sequence<GivenList>) -> Result<Vec<NameList>, Memory>
    ensures { IfOk result (λ names. names.items ≡ map spec.names_in lists) }
{
    let mut names = Vec::new(alloc);
    for list in lists.into_vec() {
        names.push(names_in(alloc, list))?;
    }
    Ok(names)
}
