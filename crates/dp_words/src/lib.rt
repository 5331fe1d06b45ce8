//! The words of the command line, and the job that they ask for.
#![tactic(auto)]

mod job;
mod line;
mod name;
mod number;
mod parse;
mod read;

pub use job::{
    CheckJob, Job, MakeJob, OrderWord, PlanJob, PrintJob, ShowJob, SimJob, TrialJob, ValueJob,
    WordFault,
};
pub use name::Name;
pub use read::read_words;
