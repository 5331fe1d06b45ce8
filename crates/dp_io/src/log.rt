// The log of a shelf.
ghost use Rattle.std.specs.Prelude.{◌≡◌, ◌++◌, [], ◌∷◌, length, OnOk, OnErr};

use crate::Ending;
use dp_base::Memory;
use std::alloc::Global;

/// The fetches of a shelf, the first of them first.
#[derive(Drop)]
pub struct Log {
    entries: Vec<Logged>,
}

// A fetch: the name that was asked for, and how it ended.
#[derive(Drop)]
struct Logged {
    name: String,
    ending: Ending,
}

impl std::marker::Model for Log {
    ghost use Rattle.std.specs.Prelude.{List, map};
    ghost use Rattle.dp_io.specs.Shelf.{Entry};

    ghost Value = { List Entry };

    ghost use Rattle.dp_io.specs.Log.{entry_of};

    ghost view = { λ l. map entry_of l.entries.items };
}

impl Log {
    /// A log of no fetch. It takes no memory.
    pub fn new(alloc: Global) -> Log
        ensures { result ≡ [] }
    {
        Log {
            entries: Vec::new(alloc),
        }
    }

    /// How many fetches there were.
    pub(crate) fn len(&self) -> usize
        ensures { result ≡ length self.now }
    {
        self.entries.len()
    }

    /// Appends a fetch. After want of memory the log is unchanged.
    pub fn append(&mut self, alloc: Global, name: &str, ending: Ending) -> Result<(), Memory>
        ensures ok { OnOk result (self.new ≡ self.old ++ record { name = name.now; ending = ending } ∷ []) }
        ensures err { OnErr result (self.new ≡ self.old) }
    {
        let name = String::from_str(alloc, name)?;
        self.entries.push(Logged { name, ending })?;
        Ok(())
    }
}
