/// What a plan is asked for besides its horizon.
#[derive(Clone, Copy, Debug, PartialEq, Eq)]
pub struct PlanOpts {
    /// The version of the certificate, 1 or 2.
    pub version: u32,
    /// The most branches and merges of its tree.
    pub nodes: u32,
    /// The look of its bounds, from 1 to 16.
    pub look: u32,
    /// Whether classes are merged.
    pub merge: bool,
}
