use crate::held_leaves::HeldLeaves;
use dp_tree::NodeArena;

/// The state of a search: the tree so far, the leaves that are held, the best policy so far with its
/// low worth, and how many steps were made.
#[derive(Drop)]
pub struct State<F, P> {
    pub arena: NodeArena,
    pub held: HeldLeaves<F>,
    pub lower: i128,
    pub policy: P,
    pub inner: u32,
}
