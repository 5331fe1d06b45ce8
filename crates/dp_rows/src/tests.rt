//! Rows of a call that no command shows.
ghost use Rattle.std.specs.Prelude.{◌≤◌};

use dp_base::Memory;
use dp_model::fits;
use dp_pomdp::PomdpTable;
use dp_reader::read_model;
use std::alloc::Global;
use std::test::Fail;

// The decentralised tiger, as in `models/`, by numbers.
const TIGER: &[u8] = b"agents: 2
discount: 1
values: reward
states: 2
start: uniform
actions:
3
3
observations:
2
2
T: * : uniform
T: 0 0 : identity
O: * : uniform
O: 0 0 : 0 : 0.7225 0.1275 0.1275 0.0225
O: 0 0 : 1 : 0.0225 0.1275 0.1275 0.7225
R: 0 0 : * : * : * : -2
R: 1 1 : 0 : * : * : -50
R: 2 2 : 1 : * : * : -50
R: 1 1 : 1 : * : * : 20
R: 2 2 : 0 : * : * : 20
R: 1 2 : * : * : * : -100
R: 2 1 : * : * : * : -100
R: 1 0 : 0 : * : * : -101
R: 0 2 : 1 : * : * : -101
R: 0 1 : 0 : * : * : -101
R: 2 0 : 1 : * : * : -101
R: 0 2 : 0 : * : * : 9
R: 0 1 : 1 : * : * : 9
R: 2 0 : 0 : * : * : 9
R: 1 0 : 1 : * : * : 9
";

// Two keys are kept: nothing was done yet, and both agents have listened and heard the tiger on the left.
#[test]
fn the_first_two_keys_of_tiger(rt: HostRuntime) -> Result<(), Fail> {
    let table = tiger_table(rt.alloc(), 2)?;
    assert!(rt; table.find(&[]) == Some(8_652_000_000));
    assert!(rt; table.find(&[0, 0]) == Some(5_330_000_000));
    assert!(rt; table.find(&[0, 1]).is_none());
    assert!(rt; table.find(&[0, 0, 0, 0]).is_none());
    Ok(())
}

// The table of the first keys of tiger over two steps.
fn tiger_table(alloc: Global, most_rows: u32) -> Result<PomdpTable, Memory> {
    let Ok(read) = read_model(alloc, TIGER) else {
        return Err(Memory);
    };
    match fits(&read.model, 2) {
        Ok(fit) => PomdpTable::build(alloc, &read.model, fit, most_rows),
        Err(_) => Err(Memory),
    }
}
