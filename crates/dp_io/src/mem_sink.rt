// A sink in memory.
ghost use Rattle.std.specs.Prelude.{◌≡◌, ◌<◌, ◌+◌, ◌++◌, ◌^◌, [], length, take, Some, None, IfOk};

use crate::{Sink, SinkFailed, Texts};
use dp_base::Memory;
use std::alloc::Global;

/// A sink with room for so many bytes, which fails where it was told to.
///
/// A put fails exactly where it is the named one or does not fit the room that is left. One that
/// fails appends its longest prefix that fits, and the named one no more than it is to keep.
#[derive(Drop)]
pub struct MemSink {
    bytes: Vec<u8>,
    room: u64,
    puts: u64,
    offered: u128,
    faults: u64,
    named: Option<(u64, u64)>,
    texts: Texts,
}

impl std::marker::Model for MemSink {
    ghost use Rattle.std.specs.Prelude.{◌≤◌, ◌*◌, ◌^◌, length, vec_capacity};
    ghost use Rattle.dp_io.specs.MemSink.{MemSinkView};

    ghost Value = { MemSinkView };

    ghost view = { λ s. record {
      bytes = s.bytes.items;
      room = s.room;
      puts = s.puts;
      offered = s.offered;
      faults = s.faults;
      texts = s.texts.items;
      named = s.named;
    } };

    ghost invariant = { λ s. (length s.bytes.items ≤ s.room) × (s.room ≤ vec_capacity s.bytes)
        × (s.faults ≤ s.puts) × (s.offered ≤ s.puts * 2 ^ 64) };
}

impl MemSink {
    /// A sink with room for so many bytes, all of which it takes from memory now.
    pub fn new(alloc: Global, room: u64) -> Result<MemSink, Memory>
        ensures { IfOk result
            (λ sink. sink ≡ record {
              bytes = [];
              room = room;
              puts = 0;
              offered = 0;
              faults = 0;
              texts = [];
              named = None;
            }) }
    {
        Ok(MemSink {
            bytes: Vec::with_capacity(alloc, room as usize)?,
            room,
            puts: 0,
            offered: 0,
            faults: 0,
            named: None,
            texts: Texts::new(),
        })
    }

    /// Names one put, by its number counted from 0, that is to fail with at most `kept` of its
    /// bytes appended. It takes the place of one that was named before.
    pub fn fail_at(&mut self, call: u64, kept: u64)
        ensures { self.new ≡ record self.old { named = Some (call, kept) } }
    {
        self.named = Some((call, kept));
    }

    /// The bytes that were appended so far.
    pub fn bytes(&self) -> &[u8]
        ensures { result.now ≡ self.now.bytes }
    {
        &self.bytes
    }
}

impl Sink for MemSink {
    ghost use Rattle.std.specs.Prelude.{◌++◌, take};
    ghost use Rattle.dp_io.specs.Sink.{Puts};
    ghost use Rattle.dp_io.specs.MemSink.{sink_view, kept_of};

    ghost view = { sink_view };

    fn put(&mut self, bytes: &[u8]) -> Result<(), SinkFailed>
        requires { self.old.puts < 2 ^ 63 }
        ensures puts { Puts (sink_view self.old) (sink_view self.new) bytes.now result }
        ensures kept { self.new.bytes
            ≡ self.old.bytes ++ take (kept_of self.old (length bytes.now)) bytes.now }
        ensures room { self.new.room ≡ self.old.room }
        ensures named { self.new.named ≡ self.old.named }
    {
        let left = self.room as usize - self.bytes.len();
        let named = match self.named {
            Some((call, kept)) if call == self.puts => Some(kept),
            _ => None,
        };
        self.puts += 1;
        self.texts.take(bytes);
        self.offered += bytes.len() as u128;
        let fits = bytes.len().min(left);
        let kept = match named {
            Some(kept) => fits.min(kept as usize),
            None => fits,
        };
        self.bytes.extend_from_slice(&bytes[..kept]).unwrap();
        if named.is_some() || left < bytes.len() {
            self.faults += 1;
            return Err(SinkFailed);
        }
        Ok(())
    }
}
