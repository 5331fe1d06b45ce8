ghost use Rattle.std.specs.Prelude.{◌<◌, ◌^◌};

use super::*;
use std::alloc::Global;
use std::test::Fail;

#[test]
fn a_shelf_gives_what_it_holds_and_fails_where_it_is_told_to(rt: HostRuntime) -> Result<(), Fail> {
    let alloc = rt.alloc();
    let mut shelf = MemShelf::new(alloc)?;
    shelf.hold(alloc, "a", b"one")?;
    shelf.hold(alloc, "a", b"four")?;
    shelf.hold(alloc, "empty", b"")?;
    shelf.fail_at(alloc, 3)?;
    assert!(rt; take(&mut shelf, alloc, "a", 4) == Ok(4));
    assert!(rt; take(&mut shelf, alloc, "a", 3) == Err(FetchFault::TooLong(4)));
    assert!(rt; take(&mut shelf, alloc, "empty", 0) == Ok(0));
    assert!(rt; take(&mut shelf, alloc, "a", 4) == Err(FetchFault::Failed));
    assert!(rt; take(&mut shelf, alloc, "b", 4) == Err(FetchFault::Failed));
    Ok(())
}

fn take<S: Shelf>(shelf: &mut S, alloc: Global, name: &str, most: u64) -> Result<usize, FetchFault>
    requires { most < 2 ^ 63 }
{
    Ok(shelf.fetch(alloc, name, most)?.len())
}

#[test]
fn a_sink_keeps_a_prefix_of_a_put_that_fails(rt: HostRuntime) -> Result<(), Fail> {
    let mut sink = MemSink::new(rt.alloc(), 8)?;
    sink.fail_at(1, 2);
    assert!(rt; sink.put(b"abc") == Ok(()));
    assert!(rt; sink.put(b"def") == Err(SinkFailed));
    assert!(rt; sink.put(b"ghijk") == Err(SinkFailed));
    assert_eq!(rt; sink.bytes(), b"abcdeghi".as_slice());
    Ok(())
}
