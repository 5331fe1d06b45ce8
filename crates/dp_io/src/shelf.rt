// A shelf of files that are fetched by name.
ghost use Rattle.std.specs.Prelude.{◌<◌, ◌^◌, ◌≡◌};
ghost use Rattle.dp_io.specs.declared.shelf.FetchFault.TheVariants as faults;

use dp_base::Memory;
use std::alloc::{AllocError, Global};

/// Why a fetch gave nothing.
#[derive(Clone, Copy, Debug, PartialEq, Eq)]
pub enum FetchFault {
    /// The file could not be read.
    Failed,
    /// The file has this number of bytes, which is more than were asked for. Where a shelf does
    /// not tell its contents, the file may have more.
    TooLong(u64),
    /// Memory ran out.
    Memory,
}

impl From<Memory> for FetchFault {
    ghost from_gives = { λ _ e. e ≡ faults.Memory };

    fn from(_: Memory) -> FetchFault {
        FetchFault::Memory
    }
}

impl From<AllocError> for FetchFault {
    ghost from_gives = { λ _ e. e ≡ faults.Memory };

    fn from(_: AllocError) -> FetchFault {
        FetchFault::Memory
    }
}

/// How a fetch ended. One that ran out of memory has no ending.
#[derive(Clone, Copy, Debug, PartialEq, Eq)]
pub enum Ending {
    /// The bytes were given.
    Given,
    /// The file could not be read.
    Failed,
    /// The file has this number of bytes, which is more than were asked for.
    Long(u64),
}

/// A shelf of files that are fetched by name.
pub trait Shelf {
    ghost use Rattle.dp_io.specs.Shelf.{ShelfView, Fetches};

    /// The log of the fetches so far, the bytes of those that were given and, where the shelf tells
    /// that, what each name holds and which fetches fail.
    ghost view: { Self → ShelfView };

    /// All that the name holds, where that is at most `most` bytes.
    ///
    /// The fetch appends its one entry to the log, the bytes that it gives to those that were given,
    /// and changes nothing else. It answers `Failed`
    /// exactly where the count of faults, the failed entries of the log, rose; where the contents
    /// are told, exactly where the fetch of this number and name is to fail. It answers `TooLong`
    /// only with a number above `most`; where the contents are told, exactly where it is not to
    /// fail and the name holds so many bytes. After want of memory the shelf is unchanged.
    fn fetch(&mut self, alloc: Global, name: &str, most: u64) -> Result<Vec<u8>, FetchFault>
        requires { most < 2 ^ 63 }
        ensures { Fetches (view self.old) (view self.new) name.now most result };
}
