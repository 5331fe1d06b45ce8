// A sink over a writer.
ghost use Rattle.std.specs.Prelude.{◌≡◌, ◌≤◌, ◌*◌, ◌^◌, [], List, ℕ, OnOk, OnErr};
ghost use Rattle.std.specs.Io.KnownBytes.{Appends};
ghost use Rattle.decplan.specs.Sink.{untold, WritesAllBut};

use dp_io::{Sink, SinkFailed, Texts};
use std::io::Write;

/// A writer, as standard output. It keeps the counts, and in contracts the texts that were put; it
/// tells nothing of its output.
///
/// Each error of the system is a fault, one of the flush too, and so is a write that takes nothing.
#[derive(Drop)]
pub struct HostSink<W: Write> {
    out: W,
    puts: u64,
    offered: u128,
    faults: u64,
    texts: Texts,
    ghost few_faults: { faults ≤ puts },
    ghost few_bytes: { offered ≤ puts * 2 ^ 64 },
}

impl<W: Write> HostSink<W> {
    /// The writer, to which nothing was put so far.
    pub fn new(out: W) -> HostSink<W>
        ensures puts { result.puts ≡ 0 }
        ensures texts { result.texts.items ≡ [] }
    {
        HostSink {
            out,
            puts: 0,
            offered: 0,
            faults: 0,
            texts: Texts::new(),
        }
    }
}

// Writes all the bytes, and sends them on.
fn write_whole<W: Write>(out: &mut W, bytes: &[u8]) -> Result<(), SinkFailed>
    ensures ok { OnOk result (Appends (W.contents out.old) (W.contents out.new) bytes.now) }
    ensures err { OnErr result
        ((rest : List ℕ) × WritesAllBut (W.contents out.old) (W.contents out.new) bytes.now rest) }
{
    let mut rest = bytes;
    while !rest.is_empty() {
        match out.write(rest) {
            Ok(0) | Err(_) => return Err(SinkFailed),
            Ok(count) => rest = &rest[count..],
        }
    }
    match out.flush() {
        Ok(()) => Ok(()),
        Err(_) => Err(SinkFailed),
    }
}

impl<W: Write> Sink for HostSink<W> {
    ghost use Rattle.std.specs.Prelude.{◌<◌};
    ghost use Rattle.dp_io.specs.Sink.{Puts};

    ghost view = { λ s. untold s.puts s.offered s.faults s.texts.items };

    fn put(&mut self, bytes: &[u8]) -> Result<(), SinkFailed>
        requires { self.old.puts < 2 ^ 63 }
        ensures puts { Puts (untold self.old.puts self.old.offered self.old.faults self.old.texts.items)
            (untold self.new.puts self.new.offered self.new.faults self.new.texts.items) bytes.now result }

        // What is written, where it is known what the writer holds.
        ensures ok { OnOk result (Appends (W.contents self.old.out) (W.contents self.new.out) bytes.now) }
        ensures err { OnErr result
            ((rest : List ℕ) × WritesAllBut (W.contents self.old.out) (W.contents self.new.out) bytes.now rest) }
    {
        self.puts += 1;
        self.texts.take(bytes);
        self.offered += bytes.len() as u128;
        let written = write_whole(&mut self.out, bytes);
        if written.is_err() {
            self.faults += 1;
        }
        written
    }
}

#[cfg(test)]
mod tests;
