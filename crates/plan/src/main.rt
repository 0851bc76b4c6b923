// Reads an order sheet on standard input and prints the plan. One byte more than the largest order sheet tells that an input is
// too long.
#![tactic(auto)]

use sheet::ORDER_BYTES;
use std::io;

fn main(rt: HostRuntime) -> io::Result<()> {
    // Memory is fixed: the input is the front of an array.
    let mut order = [0u8; ORDER_BYTES + 1];
    // An input that cannot be read counts as an empty one.
    let n = reading::read_full(&mut rt.stdin(), &mut order).unwrap_or(0);
    printing::print_plan(&rt, &order[..n])
}
