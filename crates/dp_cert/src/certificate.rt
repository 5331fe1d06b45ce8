use dp_policy::Shared;
use dp_tree::Tree;

/// A certificate for a model: a joint policy, an interval of expected rewards, and a bound tree that
/// shows its upper end.
///
/// Contracts see the certificate of the definitions that it is, `certificate_of`. Where that has a shared
/// policy over its horizon, the horizon of `policy` is the same.
#[derive(Drop)]
pub struct Certificate {
    /// The version of its text, 1 or 2. In version 1 the policy is plain.
    pub version: u32,
    /// How many steps the policy has.
    pub horizon: u32,
    /// How many steps the bounds of the tree look ahead.
    pub look: u32,
    /// Whether the mode is exact.
    pub exact: bool,
    /// What the ends of the interval and the bounds are counted in.
    pub unit: i128,
    /// The lower end of the interval, in units.
    pub lower: i128,
    /// The upper end of the interval, in units.
    pub upper: i128,
    /// How many branches and merges the tree has.
    pub inner: u32,
    pub policy: Shared,
    pub tree: Tree,
}
