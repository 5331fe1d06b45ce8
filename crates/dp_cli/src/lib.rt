//! The commands: from the words of the command line, and the files that they name, to the one text
//! that a call puts.
#![tactic(auto)]

ghost use Rattle.std.specs.Prelude.{◌≡◌, ◌≢◌, ◌+◌, ◌<◌, ◌^◌, ◌↔◌, None, length, map, string_bytes, IfSome};
ghost use Rattle.dp_words.specs.Words.{job_of};
ghost use Rattle.dp_cli.specs.Causes.{files_of, first_refusal, IsCertified, LogsFirstOf, LastFailed, status_by};
ghost use Rattle.dp_cli.specs.Causes.{TellsLimitOf};
ghost use Rattle.dp_cli.specs.Put.{PutsOrMemory};
ghost use Rattle.dp_cli.specs.Run.{IsFound, Runs, RunsAsTold};

mod check;
mod episodes;
mod fetch;
mod job;
mod make;
mod number;
mod orders;
mod plan;
mod print;
mod put;
mod reason;
mod refusal;
mod show;
mod shown;
mod sim;
mod status;
mod trial;
mod value;

use dp_io::{Shelf, Sink};
use job::do_words;
use put::put_outcome;
pub use refusal::{FileRole, JobFault, Refusal};
pub use status::Status;
use std::alloc::Global;

/// Does what the words after the program's name ask for: fetches the files of the job from the
/// shelf, the model first, and puts one text to the sink.
///
/// With `Done` and `Rejected` the text is that of the command. With any other status it is the one
/// line that tells the refusal, and `WriteFault` comes in place of any status where the put failed.
/// A job asks for its next file only where nothing before it is refused. Want of memory may come
/// at any step, but not after a fetch that failed, whose line takes none.
pub fn run<S: Shelf, W: Sink>(alloc: Global, words: &[String], shelf: &mut S, out: &mut W) -> Status
    requires { (W.view out.old).puts < 2 ^ 63 }

    // Over every shelf and sink: what is fetched, what is answered to it, and the put of the answer.
    ensures runs { Runs (job_of (map string_bytes words.now)) (S.view shelf.old) (S.view shelf.new)
        (W.view out.old) (W.view out.new) result }

    // Over a shelf that tells its contents: they determine the answer.
    ensures told { IfSome (S.view shelf.old).told (λ contents. RunsAsTold contents (length (S.view shelf.old).log)
        (job_of (map string_bytes words.now)) (W.view out.old) (W.view out.new) result) }

    // Over every shelf and sink: Done tells that all the files of the job were given, that one text was put,
    // and that what the job's command claims of the bytes given and of this text is so. Of `plan`: the text is
    // that of a certificate that keeps all promises of a plan for the model of the file's bytes, with the
    // options of the job and by the branching rule of its order; so it is valid, the value of its policy lies
    // in its interval, and no joint policy is worth more than the upper end; where it is closed and exact, its
    // ends are equal and its policy is optimal. Of `value`: the bytes of the second file are the text of a
    // joint policy for the model of the first, and the two numbers of the text are its value, or hold it
    // between them. Of `check`: the bytes of the second file are the text of a certificate that is valid for
    // the model of the first, what it claims is so, as of a plan's, and the three words tell whether it is
    // closed, lean and merged. Of `show`: the bytes of the second file are the text of a certificate for the
    // model of the first, and the text has a line for each agent and own history, with the names of what was
    // seen and of the action that the policy does after it. Of `sim`: the bytes of the second file are such a
    // text, and the text tells the episodes of its policy in the model, one after the other by the words of
    // the seed. Of `print`: the text tells the tables of the model of the file. Of `make`: the text is that of the
    // model which is made of the sizes by the words of the seed. Of `trial`: the text tells what a certificate
    // states that keeps all promises of a plan for this model.
    ensures certified { result ≡ Status.Done → IsCertified (job_of (map string_bytes words.now))
        (S.view shelf.old) (S.view shelf.new) (W.view out.old) (W.view out.new) }

    // The cause of every status and line, over every shelf: the last file that was fetched failed or was
    // too long, or else what is wrong with the bytes that were given, or nothing.
    ensures found { result ≢ Status.WriteFault → result ≢ Status.NoMemory →
        IsFound (job_of (map string_bytes words.now)) (S.view shelf.old) (S.view shelf.new) (W.view out.old)
        (W.view out.new) result }

    // Over every shelf: where a limit on the bytes of a file is told, that of a command on its own text
    // aside, the last file that was fetched is too long, and the line has its number of bytes.
    ensures too_long { result ≡ Status.TooLarge → TellsLimitOf (job_of (map string_bytes words.now))
        (S.view shelf.old) (S.view shelf.new) (W.view out.old) (W.view out.new) }

    // The exact cause of every status, and the line of every refusal, over a shelf that tells its contents.
    ensures cause { result ≢ Status.WriteFault → result ≢ Status.NoMemory →
        IfSome (S.view shelf.old).told (λ contents. result ≡ status_by
        (first_refusal contents (length (S.view shelf.old).log) (job_of (map string_bytes words.now)))) }
    ensures refused { IfSome (S.view shelf.old).told (λ contents.
        IfSome (first_refusal contents (length (S.view shelf.old).log) (job_of (map string_bytes words.now)))
        (λ refusal. PutsOrMemory (W.view out.old) (W.view out.new) refusal result)) }

    // Plain facts that follow from these.
    ensures fetched { LogsFirstOf (files_of (job_of (map string_bytes words.now)))
        (S.view shelf.old).log (S.view shelf.new).log }
    ensures unchanged { (S.view shelf.new).told ≡ (S.view shelf.old).told }
    ensures one_put { (W.view out.new).puts ≡ (W.view out.old).puts + 1 }
    ensures usage { result ≢ Status.WriteFault → result ≢ Status.NoMemory →
        ((result ≡ Status.Usage) ↔ (job_of (map string_bytes words.now) ≡ None)) }
    ensures read_fault { result ≢ Status.WriteFault →
        ((result ≡ Status.ReadFault) ↔ LastFailed (S.view shelf.old).log (S.view shelf.new).log) }
    ensures write_fault { (result ≡ Status.WriteFault) ↔ ((W.view out.old).faults < (W.view out.new).faults) }
{
    let outcome = do_words(alloc, words, shelf);
    put_outcome(alloc, out, outcome)
}
