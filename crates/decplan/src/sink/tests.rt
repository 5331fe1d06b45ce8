use super::*;
use std::io;

// A writer that takes a few bytes at a time, and no more than it has room for.
#[derive(Drop)]
struct Pieces {
    room: usize,
    can_flush: bool,
}

impl Write for Pieces {
    fn write(&mut self, buf: &[u8]) -> io::Result<usize> {
        let count = buf.len().min(3).min(self.room);
        self.room -= count;
        Ok(count)
    }

    fn flush(&mut self) -> io::Result<()> {
        if self.can_flush {
            return Ok(());
        }
        Err(io::Error::from(io::ErrorKind::StorageFull))
    }
}

#[test]
fn a_write_that_takes_nothing_and_a_failed_flush_are_faults(rt: HostRuntime) {
    for (room, can_flush, fails) in [(8, true, false), (7, true, true), (8, false, true)] {
        let mut sink = HostSink::new(Pieces { room, can_flush });
        assert_eq!(rt;
            sink.put(b"12345678").is_err(),
            fails,
            "with room for {room}"
        );
    }
}
