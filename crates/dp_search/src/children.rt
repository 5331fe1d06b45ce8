ghost use Rattle.std.specs.Prelude.{◌≡◌, ◌+◌, ◌<◌, ◌^◌, All, length, map, IfOk};
ghost use Rattle.std.specs.Int.{int_min};
ghost use Rattle.dp_spec.specs.Front.{Front};
ghost use Rattle.dp_search.specs.Running.{opened};
ghost use Rattle.dp_search.specs.SearchStates.{open_leaf, next_front};

use crate::held_leaf::HeldLeaf;
use crate::planner::Child;
use dp_base::Memory;
use std::alloc::Global;

// The lesser of two bounds.
fn lesser(a: &i128, b: &i128) -> i128
    ensures { result ≡ int_min a.now b.now }
{
    let a = *a;
    let b = *b;
    if a <= b { a } else { b }
}

/// The leaves of a step's children, numbered from `first` on, where the leaf `top` makes the step. Each
/// has the least bound of its path.
pub fn leaves_of<F: Drop>(
    alloc: Global,
    first: u32,
    top: &HeldLeaf<F>,
    children: Vec<Child<F>>,
) -> Result<Vec<HeldLeaf<F>>, Memory>
    requires few { first + length children.items < 2 ^ 32 }
    requires shallow { top.now.above < 2048 }
    ensures leaves { IfOk result (λ v. (meaning : F → Front) →
        map (open_leaf meaning) v.items
        ≡ opened first (top.now.above + 1) top.now.bound (map (next_front meaning) children.items)) }
    ensures fronts { IfOk result (λ v. map (λ (o : HeldLeaf F). o.front) v.items
        ≡ map (λ (c : Child F). c.front) children.items) }
{
    let mut leaves = Vec::new(alloc);
    let mut node = first;
    for child in children {
        leaves.push(HeldLeaf {
            bound: lesser(&top.bound, &child.bound),
            above: top.above + 1,
            node,
            front: child.front,
        })?;
        node += 1;
    }
    Ok(leaves)
}
