/// The scales of a model, and its gain.
///
/// A whole number of a table stands for that number over the table's scale. The discount is the
/// gain over the scale `discount`.
#[derive(Clone, Copy, Debug, PartialEq, Eq)]
pub struct Scales {
    /// Of the start chances.
    pub start: u64,
    /// Of the transition chances.
    pub trans: u64,
    /// Of the observation chances.
    pub obs: u64,
    /// Of the rewards.
    pub reward: u64,
    /// Of the discount.
    pub discount: u64,
    /// The discount's whole number.
    pub gain: u64,
}
