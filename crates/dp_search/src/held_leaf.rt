/// A leaf that may be grown: its bound, how many steps stand above it, its number and its front. The
/// greatest bound comes first, and of equal ones the deepest.
#[derive(Drop)]
#[derive_where(PartialEq, Eq, PartialOrd, Ord)]
pub struct HeldLeaf<F> {
    pub bound: i128,
    pub above: u32,
    pub node: u32,
    #[derive_where(skip)]
    pub front: F,
}
