//! The outside of the program: a shelf of files that are fetched by name, and a sink for what is
//! written. Both are traits; a shelf and a sink in memory stand beside them for tests.
#![tactic(auto)]

mod laws;
mod log;
mod mem_shelf;
mod mem_sink;
mod shelf;
mod sink;
mod texts;

pub use laws::{
    a_fetch_fails_where_the_faults_rise, a_name_holds_what_it_was_given_last,
    a_told_fetch_is_determined,
};
pub use log::Log;
pub use mem_shelf::MemShelf;
pub use mem_sink::MemSink;
pub use shelf::{Ending, FetchFault, Shelf};
pub use sink::{Sink, SinkFailed};
pub use texts::Texts;

#[cfg(test)]
mod tests;
