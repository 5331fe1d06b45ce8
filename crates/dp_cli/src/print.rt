// The command `print`.
ghost use Rattle.std.specs.Prelude.{◌≡◌};
ghost use Rattle.dp_reader.specs.Reading.{meant_model};
ghost use Rattle.dp_writer.specs.TableText.{table_text};
ghost use Rattle.dp_cli.specs.Answer.{GivesText};
ghost use Rattle.dp_cli.specs.PrintCommand.{print_command, table_fault};
ghost use Rattle.dp_cli.specs.Run.{Does};
ghost use Rattle.dp_cli.specs.Steps.{answer_of};

use crate::Refusal;
use crate::fetch::fetch_model;
use dp_io::Shelf;
use dp_reader::ReadModel;
use dp_words::PrintJob;
use dp_writer::write_table;
use std::alloc::Global;

// The tables of a model, or why there are none.
pub fn print<S: Shelf>(alloc: Global, job: &PrintJob, shelf: &mut S) -> Result<Vec<u8>, Refusal>
    ensures { Does (print_command job.now) (S.view shelf.old) (S.view shelf.new) (answer_of result) }
{
    let read = fetch_model(alloc, shelf, &job.model)?;
    print_of(alloc, &read)
}

// The tables of a model that was read, or the limit that their text passes.
fn print_of(alloc: Global, read: &ReadModel) -> Result<Vec<u8>, Refusal>
    ensures { GivesText (table_fault (meant_model read.now))
        (λ text. text ≡ table_text read.now.model read.now.repaired) result }
{
    Ok(write_table(alloc, &read.model, read.repaired)?)
}
