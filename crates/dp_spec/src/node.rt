use crate::Step;

/// What stands at a number of an arena: a leaf with its bound, or a step whose children have
/// consecutive numbers.
#[derive(Clone, Copy, Debug, PartialEq, Eq)]
pub enum NodeKind {
    Leaf {
        bound: i128,
    },
    Inner {
        step: Step,
        first_child: u32,
        children: u32,
    },
}

/// A node of an arena, and how many steps stand above it.
#[derive(Clone, Copy, Debug, PartialEq, Eq)]
pub struct ArenaNode {
    pub above: u32,
    pub kind: NodeKind,
}
