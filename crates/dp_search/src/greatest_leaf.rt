ghost use Rattle.std.specs.Prelude.{◌≡◌};
ghost use Rattle.dp_spec.specs.BoundTree.{greatest_leaf};
ghost use Rattle.dp_tree.specs.TreeValue.{bound_tree};
ghost use Rattle.dp_search.specs.GreatestLeaves.{greatest_after};

use crate::look::copied;
use dp_tree::Tree;

/// The greatest bound of a leaf of a tree; of a branch without children it is 0.
pub fn greatest_bound(tree: &Tree) -> i128
    ensures { result ≡ greatest_leaf (bound_tree tree.now) }
{
    match tree {
        Tree::Leaf { bound } => copied(bound),
        Tree::Branch { kids, .. } => {
            let mut some = false;
            let mut greatest = 0;
            for kid in kids {
                greatest = greater(some, &greatest, &greatest_bound(kid));
                some = true;
            }
            greatest
        }
        Tree::Merge { kid, .. } => greatest_bound(kid),
    }
}

// The greater of two bounds, or the second where there is no first.
fn greater(some: bool, first: &i128, second: &i128) -> i128
    ensures { result ≡ greatest_after some first.now second.now }
{
    let first = *first;
    let second = *second;
    if some && second <= first {
        first
    } else {
        second
    }
}
