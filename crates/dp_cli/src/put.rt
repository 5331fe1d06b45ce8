// The one put of a call.
ghost use Rattle.std.specs.Prelude.{◌≡◌, ◌<◌, ◌^◌, string_bytes, IfErr, IfOk};
ghost use Rattle.dp_cli.specs.Refusal.{fault_line, file_line, large_line, line_word, model_line};
ghost use Rattle.dp_cli.specs.Answer.{refused};
ghost use Rattle.dp_cli.specs.Put.{PutsAnswer};
ghost use Rattle.dp_cli.specs.Steps.{PutsOutcome, PutsRefusal};

use crate::reason::line_of_reason;
use crate::{JobFault, Refusal, Status};
use dp_base::Memory;
use dp_io::Sink;
use dp_lines::FileWhy;
use dp_meaning::Why;
use dp_model::TooLarge;
use std::alloc::Global;

// Puts the text, or the line that tells why there is none.
pub fn put_outcome<W: Sink>(alloc: Global, out: &mut W, outcome: Result<Vec<u8>, Refusal>) -> Status
    requires { (W.view out.old).puts < 2 ^ 63 }
    ensures { PutsOutcome (W.view out.old) (W.view out.new) outcome result }
{
    match outcome {
        Ok(text) => put(out, Status::Done, &text),
        Err(refusal) => put_refusal(alloc, out, refusal),
    }
}

// Puts the line of a refusal. A line without a number takes no memory.
fn put_refusal<W: Sink>(alloc: Global, out: &mut W, refusal: Refusal) -> Status
    requires { (W.view out.old).puts < 2 ^ 63 }
    ensures { PutsRefusal (W.view out.old) (W.view out.new) refusal result }
{
    match refusal {
        Refusal::Usage => put(out, Status::Usage, b"refused usage\n"),
        Refusal::Read(role) => put(out, Status::ReadFault, role.read_line().as_bytes()),
        Refusal::Fault(fault) => {
            let line = line_of_fault(alloc, fault);
            put_line(out, fault.status(), line)
        }
        Refusal::Memory => put(out, Status::NoMemory, b"refused memory\n"),
    }
}

// Puts a line that took memory, or tells that there was none.
fn put_line<W: Sink>(out: &mut W, status: Status, line: Result<String, Memory>) -> Status
    requires { (W.view out.old).puts < 2 ^ 63 }
    ensures line { IfOk line
        (λ line. PutsAnswer (W.view out.old) (W.view out.new)
        (record { status = status; text = string_bytes line }) result) }
    ensures memory { IfErr line
        (λ _. PutsAnswer (W.view out.old) (W.view out.new) (refused Refusal.Memory) result) }
{
    match line {
        Ok(line) => put(out, status, line.as_bytes()),
        Err(Memory) => put(out, Status::NoMemory, b"refused memory\n"),
    }
}

// The line that tells what is wrong with the texts of a job.
fn line_of_fault(alloc: Global, fault: JobFault) -> Result<String, Memory>
    ensures { IfOk result (λ line. string_bytes line ≡ fault_line fault) }
{
    match fault {
        JobFault::BadModel { line, column, why } => line_of_model(alloc, line, column, why),
        JobFault::BadFile { line, why } => line_of_file(alloc, line, why),
        JobFault::TooLarge(passed) => line_of_limit(alloc, passed),
        JobFault::Rejected(reason) => line_of_reason(alloc, reason),
    }
}

// The line that tells what is wrong with a model, and where.
fn line_of_model(alloc: Global, line: u32, column: u32, why: Why) -> Result<String, Memory>
    ensures { IfOk result (λ text. string_bytes text ≡ model_line line column why) }
{
    let word = why.word();
    Ok(format!(in alloc; "refused model line {line} column {column} {word}\n")?)
}

// The line that tells the first line of a second file that is not as required.
fn line_of_file(alloc: Global, line: u32, why: FileWhy) -> Result<String, Memory>
    ensures { IfOk result (λ text. string_bytes text ≡ file_line line why) }
{
    let word = line_word(why);
    Ok(format!(in alloc; "refused file line {line} {word}\n")?)
}

// The word of why a line is not as required.
fn line_word(why: FileWhy) -> &'static str
    ensures { result.now ≡ line_word why }
{
    match why {
        FileWhy::Shape => "shape",
        FileWhy::Number => "number",
        FileWhy::Range => "range",
    }
}

// The line that tells a limit that was passed.
fn line_of_limit(alloc: Global, passed: TooLarge) -> Result<String, Memory>
    ensures { IfOk result (λ line. string_bytes line ≡ large_line passed) }
{
    let word = passed.what.word();
    let count = passed.count;
    Ok(format!(in alloc; "refused large {word} {count}\n")?)
}

// Puts a text, and gives the status of the call.
fn put<W: Sink>(out: &mut W, status: Status, text: &[u8]) -> Status
    requires { (W.view out.old).puts < 2 ^ 63 }
    ensures { PutsAnswer (W.view out.old) (W.view out.new) (record { status = status; text = text.now }) result }
{
    match out.put(text) {
        Ok(()) => status,
        Err(_) => Status::WriteFault,
    }
}
