//! Models: their tables, their names, and the limits on them.
#![tactic(auto)]

mod horizon;
mod limit;
mod model;
mod name_list;
mod names;
mod numbering;
mod sequence;
mod sizes;

pub use horizon::{Fit, fits, fits_two};
pub use limit::{Limit, TooLarge};
pub use model::Model;
pub use name_list::NameList;
pub use names::Names;
pub use sequence::Sequence;
pub use sizes::{Cells, Sizes};

#[cfg(test)]
mod tests;
