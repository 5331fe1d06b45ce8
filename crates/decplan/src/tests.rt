use super::*;
use dp_io::{FetchFault, Shelf, Sink};
use std::fs::{self, File};

const PATH: &str = "decplan_file_test";

const TEXT: &[u8] = b"one text, and one more";

// A sink over a file puts each text behind the one before, and a shelf gives a file of just as many
// bytes as were asked for, but neither a longer one nor a missing one.
#[test]
fn a_shelf_gives_what_a_sink_put(rt: HostRuntime) -> io::Result<()> {
    let mut sink = HostSink::new(File::create(&rt, PATH)?);
    assert!(rt; sink.put(&TEXT[..10]).is_ok());
    assert!(rt; sink.put(&TEXT[10..]).is_ok());
    let mut shelf = HostShelf::new(rt.alloc(), &rt);
    let size = TEXT.len() as u64;
    let whole = shelf.fetch(rt.alloc(), PATH, size);
    let part = shelf.fetch(rt.alloc(), PATH, size - 1);
    fs::remove_file(&rt, PATH)?;
    let missing = shelf.fetch(rt.alloc(), PATH, size);
    assert!(rt; matches!(&whole, Ok(bytes) if bytes.as_slice() == TEXT));
    assert!(rt; matches!(&part, Err(FetchFault::TooLong(count)) if *count == size));
    assert!(rt; matches!(&missing, Err(FetchFault::Failed)));
    Ok(())
}

// What fails under the sink is told: a file that was opened to be read takes nothing.
#[test]
fn a_file_that_takes_nothing_is_a_fault(rt: HostRuntime) -> io::Result<()> {
    fs::write(&rt, "decplan_read_test", TEXT)?;
    let mut sink = HostSink::new(File::open(&rt, "decplan_read_test")?);
    let put = sink.put(TEXT);
    fs::remove_file(&rt, "decplan_read_test")?;
    assert!(rt; put.is_err());
    Ok(())
}
