// Lists whose items are shared.
ghost use Rattle.std.specs.Prelude.{◌≡◌, ◌<◌, map, length, set, IfOk};

use dp_base::Memory;
use std::alloc::Global;
use std::rc::Rc;

// The same items, shared.
pub(crate) fn shared<T: Drop>(alloc: Global, items: &[Rc<T>]) -> Result<Vec<Rc<T>>, Memory>
    ensures { IfOk result (λ v. map (λ r. r.value) v.items ≡ map (λ r. r.value) items.now) }
{
    let mut all = Vec::new(alloc);
    for item in items {
        all.push(item.clone()?)?;
    }
    Ok(all)
}

// The items, shared, with a new one at a place.
pub(crate) fn replaced<T: Drop>(
    alloc: Global,
    items: &[Rc<T>],
    at: usize,
    new: T,
) -> Result<Vec<Rc<T>>, Memory>
    requires { at < length items.now }
    ensures { IfOk result (λ v. map (λ r. r.value) v.items ≡ set (map (λ r. r.value) items.now) at new) }
{
    let mut all = shared(alloc, items)?;
    all[at] = Rc::new(alloc, new)?;
    Ok(all)
}
