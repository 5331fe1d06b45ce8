// A shelf over real files.
ghost use Rattle.std.specs.Prelude.{◌≡◌, ◌≤◌, [], None, IfOk, IfSome, take, vec_len};

use dp_io::{Ending, FetchFault, Log, Shelf, Texts};
use std::alloc::Global;
use std::fs::File;
use std::io::Read;
use std::rt::Files;

/// The files of the system, by their paths. It keeps the log, and in contracts the bytes that it
/// gave; it tells nothing of contents.
///
/// It reads at most one byte more than was asked for, so a file that is longer is told as one byte
/// too long. Each error of the system is a fault, and a read that gives nothing is the end.
#[derive(Drop)]
pub struct HostShelf<'a, R: Files> {
    files: &'a R,
    log: Log,
    given: Texts,
}

impl<'a, R: Files> HostShelf<'a, R> {
    /// The files that the runtime reaches, none of which was fetched so far.
    pub fn new(alloc: Global, files: &'a R) -> HostShelf<'a, R>
        ensures log { result.log ≡ [] }
        ensures given { result.given.items ≡ [] }
    {
        HostShelf {
            files,
            log: Log::new(alloc),
            given: Texts::new(),
        }
    }
}

// How many bytes are asked of the system at a time.
const PIECE: usize = 1 << 16;

// The first bytes of the file, as many as it has up to the limit.
fn read_file<R: Files>(
    alloc: Global,
    files: &R,
    path: &str,
    limit: u64,
) -> Result<Vec<u8>, FetchFault>
    ensures { IfOk result (λ bytes. vec_len bytes ≤ limit) }
{
    match File::open(files, path) {
        Ok(mut file) => read_up_to(alloc, &mut file, limit),
        Err(_) => Err(FetchFault::Failed),
    }
}

// The first bytes that the reader gives, as many as it has up to the limit.
fn read_up_to<F: Read>(alloc: Global, file: &mut F, limit: u64) -> Result<Vec<u8>, FetchFault>
    ensures most { IfOk result (λ bytes. vec_len bytes ≤ limit) }

    // All that a reader has, where it is known what it has and that is within the limit.
    ensures given { IfOk result
        (λ bytes. IfSome (F.remaining file.old) (λ left. bytes.items ≡ take limit left)) }
{
    let mut bytes = Vec::new(alloc);
    let mut piece = [0u8; PIECE];
    for _ in 0..limit {
        let room = (limit as usize - bytes.len()).min(PIECE);
        match file.read(&mut piece[..room]) {
            Ok(0) => return Ok(bytes),
            Ok(count) => bytes.extend_from_slice(&piece[..count])?,
            Err(_) => return Err(FetchFault::Failed),
        }
    }
    Ok(bytes)
}

impl<'a, R: Files> Shelf for HostShelf<'a, R> {
    ghost use Rattle.std.specs.Prelude.{ℕ, ◌<◌, ◌+◌, ◌^◌, Err};
    ghost use Rattle.dp_io.specs.declared.shelf.FetchFault.TheVariants as faults;
    ghost use Rattle.dp_io.specs.Shelf.{Fetches};

    ghost view = { λ s. record { log = s.log; given = s.given.items; told = None } };

    fn fetch(&mut self, alloc: Global, name: &str, most: u64) -> Result<Vec<u8>, FetchFault>
        requires { most < 2 ^ 63 }
        ensures fetches { Fetches (record { log = self.old.log; given = self.old.given.items; told = None })
            (record { log = self.new.log; given = self.new.given.items; told = None }) name.now most result }
        ensures long { (k : ℕ) → result ≡ Err (faults.TooLong k) → k ≡ most + 1 }
    {
        match read_file(alloc, self.files, name, most + 1) {
            Ok(bytes) => {
                let count = bytes.len() as u64;
                if count > most {
                    self.log.append(alloc, name, Ending::Long(count))?;
                    return Err(FetchFault::TooLong(count));
                }
                self.log.append(alloc, name, Ending::Given)?;
                self.given.take(&bytes);
                Ok(bytes)
            }
            Err(FetchFault::Memory) => Err(FetchFault::Memory),
            Err(_) => {
                self.log.append(alloc, name, Ending::Failed)?;
                Err(FetchFault::Failed)
            }
        }
    }
}
