ghost use Rattle.std.specs.Prelude.{◌≡◌, ◌∷◌, [], All, IfSome, IfNone, OnOk, ◌≤ℤ◌};
ghost use Rattle.std.specs.Slice.{IsItemAt};
ghost use Rattle.std.specs.List.Sorted.{IsPermutation};
ghost use Rattle.std.specs.BinaryHeap.{heap_items, IsHeap};
ghost use Rattle.std.proofs.Props.{props};
ghost use Rattle.dp_search.specs.LeafOrder.{leaf_cmp};

use crate::held_leaf::HeldLeaf;
use dp_base::Memory;
use std::alloc::Global;
use std::collections::BinaryHeap;

/// The leaves that are held, by their order.
#[derive(Drop)]
pub struct HeldLeaves<F> {
    heap: BinaryHeap<HeldLeaf<F>>,
    ghost ordered: { IsHeap leaf_cmp (heap_items heap) } by { Prim.hlevel props },
}

impl<F: Drop> HeldLeaves<F> {
    /// No leaves.
    pub fn new(alloc: Global) -> HeldLeaves<F>
        ensures none { heap_items result.heap ≡ [] }
    {
        HeldLeaves {
            heap: BinaryHeap::new(alloc),
        }
    }

    /// Holds a leaf.
    pub fn push(&mut self, leaf: HeldLeaf<F>) -> Result<(), Memory>
        ensures held { OnOk result (IsPermutation (leaf ∷ heap_items self.old.heap) (heap_items self.new.heap)) }
    {
        self.heap.push(leaf)?;
        Ok(())
    }

    /// A leaf of greatest bound.
    pub fn greatest(&self) -> Option<&HeldLeaf<F>>
        ensures item { IsItemAt (heap_items self.now.heap) 0 result }
    {
        self.heap.peek()
    }

    /// Takes a leaf of greatest bound.
    pub fn pop(&mut self) -> Option<HeldLeaf<F>>
        ensures moved { IfSome result (λ x.
            IsPermutation (heap_items self.old.heap) (x ∷ heap_items self.new.heap)) }
        ensures greatest { IfSome result (λ x. All (λ y. y.bound ≤ℤ x.bound) (heap_items self.new.heap)) }
        ensures none { IfNone result (heap_items self.old.heap ≡ []) }
    {
        self.heap.pop()
    }
}
