// A shelf in memory.
ghost use Rattle.std.specs.Prelude.{◌≡◌, ◌++◌, ◌<◌, ◌^◌, [], ◌∷◌, OnOk, OnErr, IfOk, map, reverse};
ghost use Rattle.std.specs.Prelude.{find, string_bytes};
ghost use Rattle.std.specs.Option.{option_copied};
ghost use Rattle.std.specs.Str.{bytes_eq};

use crate::{Ending, FetchFault, Log, Shelf, Texts};
use dp_base::Memory;
use std::alloc::Global;

/// A shelf that holds what it was given, and fails where it was told to.
///
/// A fetch fails exactly where its number, counted from 0, is listed or its name holds nothing.
#[derive(Drop)]
pub struct MemShelf {
    held: Vec<Held>,
    failing: Vec<u64>,
    log: Log,
    given: Texts,
}

// A name, and what it was made to hold.
#[derive(Drop)]
struct Held {
    name: String,
    bytes: Vec<u8>,
}

impl std::marker::Model for MemShelf {
    ghost use Rattle.std.specs.Prelude.{map, reverse};
    ghost use Rattle.dp_io.specs.MemShelf.{MemShelfView};

    ghost Value = { MemShelfView };

    ghost use Rattle.dp_io.specs.Held.{pair_of};

    ghost view = { λ s. record {
      log = s.log;
      given = s.given.items;
      held = map pair_of (reverse s.held.items);
      failing = s.failing.items;
    } };
}

impl MemShelf {
    /// A shelf that holds nothing, with no fetch in its log and none listed to fail.
    pub fn new(alloc: Global) -> Result<MemShelf, Memory>
        ensures { IfOk result (λ shelf. shelf ≡ record { log = []; given = []; held = []; failing = [] }) }
    {
        Ok(MemShelf {
            held: Vec::new(alloc),
            failing: Vec::new(alloc),
            log: Log::new(alloc),
            given: Texts::new(),
        })
    }

    /// Makes the name hold these bytes, in place of what it held. No bytes are the empty text,
    /// which is not nothing. After want of memory the shelf is unchanged.
    pub fn hold(&mut self, alloc: Global, name: &str, bytes: &[u8]) -> Result<(), Memory>
        ensures ok { OnOk result (self.new ≡ record self.old { held = (name.now, bytes.now) ∷ self.old.held }) }
        ensures err { OnErr result (self.new ≡ self.old) }
    {
        let name = String::from_str(alloc, name)?;
        let bytes = bytes.to_vec(alloc)?;
        self.held.push(Held { name, bytes })?;
        Ok(())
    }

    /// Lists one more fetch, by its number counted from 0, that is to fail. After want of memory
    /// the shelf is unchanged.
    pub fn fail_at(&mut self, alloc: Global, call: u64) -> Result<(), Memory>
        ensures ok { OnOk result (self.new ≡ record self.old { failing = self.old.failing ++ call ∷ [] }) }
        ensures err { OnErr result (self.new ≡ self.old) }
    {
        let _ = alloc;
        self.failing.push(call)?;
        Ok(())
    }
}

ghost use Rattle.dp_io.specs.Held.{pair_of};
ghost use Rattle.dp_io.specs.MemShelf.{held_by, shelf_view};
ghost use Rattle.dp_io.specs.Shelf.{Fetches, entries_of, texts_of};

// What the name was made to hold last.
fn find_held<'a>(held: &'a [Held], name: &str) -> Option<&'a Held>
    ensures { option_copied result ≡ find (λ h. bytes_eq (string_bytes h.name) name.now) (reverse held.now) }
{
    held.iter().rev().find(|h| h.name.as_str() == name)
}

// The bytes that the name was made to hold last.
#[tactic(auto, using(crate::proofs::HeldLemmas::held_by_last))]
fn held_bytes<'a>(held: &'a [Held], name: &str) -> Option<&'a [u8]>
    ensures { option_copied result ≡ held_by (map pair_of (reverse held.now)) name.now }
{
    match find_held(held, name) {
        Some(held) => Some(held.bytes.as_slice()),
        None => None,
    }
}

impl Shelf for MemShelf {
    ghost view = { shelf_view };

    fn fetch(&mut self, alloc: Global, name: &str, most: u64) -> Result<Vec<u8>, FetchFault>
        requires { most < 2 ^ 63 }
        ensures fetches { Fetches (shelf_view self.old) (shelf_view self.new) name.now most result }
        ensures rest { self.new ≡ record self.old {
          log = self.old.log ++ entries_of name.now result;
          given = self.old.given ++ texts_of result;
        } }
    {
        let number = self.log.len() as u64;
        let is_listed = self.failing.contains(&number);
        match held_bytes(&self.held, name) {
            Some(bytes) if !is_listed => {
                let count = bytes.len() as u64;
                if count > most {
                    self.log.append(alloc, name, Ending::Long(count))?;
                    return Err(FetchFault::TooLong(count));
                }
                let bytes = bytes.to_vec(alloc)?;
                self.log.append(alloc, name, Ending::Given)?;
                self.given.take(&bytes);
                Ok(bytes)
            }
            _ => {
                self.log.append(alloc, name, Ending::Failed)?;
                Err(FetchFault::Failed)
            }
        }
    }
}
