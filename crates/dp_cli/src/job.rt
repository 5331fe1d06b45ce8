// What a job answers.
ghost use Rattle.std.specs.Prelude.{Some, map, string_bytes};
ghost use Rattle.dp_words.specs.Words.{HasLook, HasSizes, HasSomeStep, HasVersion, job_of};
ghost use Rattle.dp_cli.specs.Run.{Replies};
ghost use Rattle.dp_cli.specs.Steps.{answer_of};

use crate::Refusal;
use crate::check::check;
use crate::make::make;
use crate::plan::plan;
use crate::print::print;
use crate::show::show;
use crate::sim::sim;
use crate::trial::trial;
use crate::value::value;
use dp_io::Shelf;
use dp_words::{Job, read_words};
use std::alloc::Global;

// The text that the words ask for, or why there is none.
pub fn do_words<S: Shelf>(
    alloc: Global,
    words: &[String],
    shelf: &mut S,
) -> Result<Vec<u8>, Refusal>
    ensures { Replies (job_of (map string_bytes words.now)) (S.view shelf.old) (S.view shelf.new) (answer_of result) }
{
    let job = read_words(alloc, words)?;
    do_job(alloc, &job, shelf)
}

// The text of a job, or why there is none.
fn do_job<S: Shelf>(alloc: Global, job: &Job, shelf: &mut S) -> Result<Vec<u8>, Refusal>
    requires some_step { HasSomeStep job.now }
    requires look { HasLook job.now }
    requires version { HasVersion job.now }
    requires sizes { HasSizes job.now }
    ensures { Replies (Some job.now) (S.view shelf.old) (S.view shelf.new) (answer_of result) }
{
    match job {
        Job::Plan(job) => plan(alloc, job, shelf),
        Job::Value(job) => value(alloc, job, shelf),
        Job::Check(job) => check(alloc, job, shelf),
        Job::Show(job) => show(alloc, job, shelf),
        Job::Sim(job) => sim(alloc, job, shelf),
        Job::Make(job) => make(alloc, job),
        Job::Print(job) => print(alloc, job, shelf),
        Job::Trial(job) => trial(alloc, job),
    }
}
