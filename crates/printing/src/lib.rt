// The output of the program `plan` for an order sheet: how long both new lists are and the cell's rules, one to a line; or the
// refusal's number.
#![tactic(auto)]

ghost use Rattle.std.specs.Prelude.{◌≤◌, length};
ghost use Rattle.policy.specs.Fields.{count_size};

use groups::WORK_BYTES;
use listing::{CELL_LIST_BYTES, GATE_LIST_BYTES};
use policy::{COUNT_BYTES, RECORD_BYTES, Refusal, Rule, number_of};
use sheet::PAIR_BYTES;
use std::{fmt, io};

// A rule's line: its action, and its ranges low-high.
#[derive(Clone, Copy)]
struct Line(Rule);

impl fmt::Display for Line {
    fn fmt<W: fmt::Write>(&self, f: &mut fmt::Formatter<W>) -> fmt::Result {
        let bounds = self.0.bounds;
        f.write_str(if self.0.is_allow() { "allow" } else { "deny" })?;
        for (low, high) in bounds.low.iter().zip(bounds.high.iter()) {
            write!(f, " {low}-{high}")?;
        }
        Ok(())
    }
}

// A line for each rule of a list.
fn print_rules(rt: &impl Print, list: &[u8]) -> io::Result<()>
    requires { count_size ≤ length list.now }
{
    let count = wire::count_at(list, 0);
    let records = list[COUNT_BYTES..].chunks_exact(RECORD_BYTES);
    for record in records.take(count) {
        rt.println(Line(wire::rule_at(record, 0)))?;
    }
    Ok(())
}

pub fn print_refusal(rt: &impl Print, f: Refusal) -> io::Result<()> {
    println!(rt; "refused {}", number_of(f))
}

// Both lists of what an order sheet is moved to. Memory is fixed: a sheet and a list are each the front of an array.
fn put_lists(order: &[u8], gate: &mut [u8], cell: &mut [u8]) -> Result<(), Refusal> {
    let mut sheet = [0; PAIR_BYTES];
    let mut work = [0; WORK_BYTES];
    let n = moving::move_order(order, &mut sheet, &mut work)?;
    let pair = &sheet[..n];
    listing::gate_list(pair, gate, &mut work)?;
    listing::cell_list(pair, cell, &mut work)?;
    Ok(())
}

fn print_lists(rt: &impl Print, gate: &[u8], cell: &[u8]) -> io::Result<()>
    requires { (count_size ≤ length gate.now) × (count_size ≤ length cell.now) }
{
    let up = wire::count_at(gate, 0);
    let down = wire::count_at(cell, 0);
    println!(rt; "up {up} down {down}")?;
    print_rules(rt, cell)
}

pub fn print_plan(rt: &impl Print, order: &[u8]) -> io::Result<()> {
    let mut gate = [0; GATE_LIST_BYTES];
    let mut cell = [0; CELL_LIST_BYTES];
    match put_lists(order, &mut gate, &mut cell) {
        Ok(()) => print_lists(rt, &gate, &cell),
        Err(f) => print_refusal(rt, f),
    }
}
