// The fetches of the files that a command asks for.
ghost use Rattle.std.specs.Prelude.{◌≤◌, IfOk, length};
ghost use Rattle.dp_cli.specs.Refusal.{most_bytes};
ghost use Rattle.dp_cli.specs.Steps.{FetchesFile, FetchesModel};

use crate::{FileRole, Refusal};
use dp_io::Shelf;
use dp_reader::{ReadModel, read_model};
use dp_words::Name;
use std::alloc::Global;

// The text of a file, or why it was not given.
pub fn fetch<S: Shelf>(
    alloc: Global,
    shelf: &mut S,
    role: FileRole,
    name: &Name,
) -> Result<Vec<u8>, Refusal>
    ensures fetched { FetchesFile (S.view shelf.old) (S.view shelf.new)
        (record { name = name.now; role = role }) result }
    ensures limit { IfOk result (λ text. length text.items ≤ most_bytes role) }
{
    match shelf.fetch(alloc, name.text(), role.most_bytes()) {
        Ok(text) => Ok(text),
        Err(fault) => Err(Refusal::of_fetch(role, fault)),
    }
}

// The model that a file means, or why there is none. The text of the file is let go.
pub fn fetch_model<S: Shelf>(
    alloc: Global,
    shelf: &mut S,
    name: &Name,
) -> Result<ReadModel, Refusal>
    ensures { FetchesModel (S.view shelf.old) (S.view shelf.new) name.now result }
{
    let text = fetch(alloc, shelf, FileRole::Model, name)?;
    Ok(read_model(alloc, &text)?)
}
