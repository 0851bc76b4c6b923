// Prints the plan of each order sheet in its folder: the examples, sheets at the limits, and one for every refusal that plan can give.
#![tactic(auto)]

use sheet::ORDER_BYTES;
use std::rt::Files;
use std::{fs, io};

const SHEETS: [&str; 14] = [
    "dairy.order",
    "plant.order",
    "refused.order",
    "empty.order",
    "largest.order",
    "longer.order",
    "no_rule.order",
    "too_many_rules.order",
    "cut_off.order",
    "left_over.order",
    "low_above_high.order",
    "action_2.order",
    "not_full.order",
    "too_many_boxes.order",
];

fn case(rt: &(impl Files + Print), name: &str) -> io::Result<()> {
    // Memory is fixed: the sheet is the front of an array.
    let mut order = [0u8; ORDER_BYTES + 1];
    let mut file = fs::open(rt, name)?;
    let n = reading::read_full(&mut file, &mut order)?;
    println!(rt; "{name}")?;
    printing::print_plan(rt, &order[..n])
}

fn main(rt: HostRuntime) -> io::Result<()> {
    for name in SHEETS {
        case(&rt, name)?;
    }
    Ok(())
}
