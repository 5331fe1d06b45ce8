/// A bound tree: a leaf states the bound of what it leaves open, a branch has a child for each action
/// of an agent's class in order, and a merge one child, in which two classes of an agent are one.
/// Contracts see the `BoundTree` that it holds.
#[derive(Drop)]
pub enum Tree {
    Leaf {
        bound: i128,
    },
    Branch {
        agent: u32,
        class: u32,
        kids: Vec<Tree>,
    },
    Merge {
        agent: u32,
        first: u32,
        second: u32,
        kid: Box<Tree>,
    },
}
