// The rows that document 01 has run by a program: each order sheet is built here, moved, and what the move came to is printed.
#![tactic(auto)]

ghost use Rattle.std.specs.Prelude.{◌≤◌, ◌<◌};
ghost use Rattle.policy.specs.Fields.{fields};

use groups::WORK_BYTES;
use policy::{ALLOW, DENY, FULL, Range, Rule};
use printing::print_refusal;
use sheet::PAIR_BYTES;
use std::io;
use test_draws::order::{Sheet, full};

// An allow of a single value in one field.
fn single(field: usize, value: u32) -> Rule
    requires { field < fields }
{
    let range = Range {
        low: value,
        high: value,
    };
    Rule {
        bounds: FULL.narrow(field, range),
        action: ALLOW,
    }
}

// So many full rules.
fn add_full(order: &mut Sheet, count: usize, action: u32) {
    for _ in 0..count {
        order.add_rule(full(action));
    }
}

// Allows of the single values 2, 4, and so on, so many, in one field.
fn add_singles(order: &mut Sheet, count: u32, field: usize)
    requires { (count < 65536) × (field < fields) }
{
    for i in 1..=count {
        order.add_rule(single(field, 2 * i));
    }
}

// Section B of so many full allows.
fn add_own(order: &mut Sheet, count: usize)
    requires { count < 65536 }
{
    order.add_count(count);
    add_full(order, count, ALLOW);
}

// 31 allows of single sources, then 31 full denies. One sheet serves all rows, so that the stack holds one.
fn comb(order: &mut Sheet, own: usize)
    requires { own < 65536 }
{
    *order = Sheet::new();
    order.add_count(62);
    add_singles(order, 31, 0);
    add_full(order, 31, DENY);
    add_own(order, own);
}

// So many allows of single sources, 31 of single destinations, deny all.
fn grid(order: &mut Sheet, sources: u32)
    requires { sources ≤ 32 }
{
    *order = Sheet::new();
    order.add_count(sources as usize + 32);
    add_singles(order, sources, 0);
    add_singles(order, 31, 1);
    add_full(order, 1, DENY);
    add_own(order, 1);
}

// Ten allows of single values in each of the first three fields, allow all, deny all.
fn cube(order: &mut Sheet) {
    *order = Sheet::new();
    order.add_count(32);
    for field in 0..3 {
        add_singles(order, 10, field);
    }
    add_full(order, 1, ALLOW);
    add_full(order, 1, DENY);
    add_own(order, 1);
}

fn print_boxes(rt: &impl Print, sheet: &[u8]) -> io::Result<()> {
    match sheet::read_pair(sheet) {
        Ok(layout) => println!(rt; "{} boxes", layout.boxes),
        Err(_) => println!(rt; "no pair sheet"),
    }
}

// Memory is fixed: the pair sheet is the front of an array.
fn print_move(rt: &impl Print, order: &Sheet) -> io::Result<()> {
    let mut sheet = [0; PAIR_BYTES];
    let mut work = [0; WORK_BYTES];
    match moving::move_order(order.bytes(), &mut sheet, &mut work) {
        Ok(n) => print_boxes(rt, &sheet[..n]),
        Err(f) => print_refusal(rt, f),
    }
}

fn main(rt: HostRuntime) -> io::Result<()> {
    let mut order = Sheet::new();
    for own in 32..=33 {
        comb(&mut order, own);
        print!(rt; "31 sources, 31 denies, {own} own rules: ")?;
        print_move(&rt, &order)?;
    }
    for sources in 31..=32 {
        grid(&mut order, sources);
        print!(rt; "{sources} sources, 31 destinations, deny all, 1 own rule: ")?;
        print_move(&rt, &order)?;
    }
    cube(&mut order);
    print!(rt; "10 values in each of 3 fields, allow all, deny all, 1 own rule: ")?;
    print_move(&rt, &order)
}
