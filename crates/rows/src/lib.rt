// The rules of a pair sheet read once into a table of numbers, where packets are traced: for many packets on one sheet that passes check.
#![tactic(auto)]

ghost use Rattle.std.specs.Prelude.{◌≡◌, ◌+◌, ◌*◌, ◌≤◌, ◌<◌, length, get_or, drop};
ghost use Rattle.std.proofs.lemmas.List.Edits.{sets};
ghost use Rattle.lists.specs.Lists.{Each};
ghost use Rattle.policy.specs.Fields.{box_size};
ghost use Rattle.policy.specs.Ranges.{inside};
ghost use Rattle.policy.specs.Rules.{Proper};
ghost use Rattle.policy.specs.Move.{together};
ghost use Rattle.policy.specs.Values.{region_of, packet_of};
ghost use Rattle.wire.specs.Records.{box_in};
ghost use Rattle.sheet.specs.Steps.{pair_at, groups_from, box_count};
ghost use Rattle.kept.specs.Steps.{run_size};
ghost use Rattle.origins.specs.Steps.{run_boxes, Holds};
ghost use Rattle.rows.specs.Steps.{row_size, table_size, row_numbers, rows_numbers, row_in, fronts_at, Fronts, Tabled};

use filter::is_within;
use origins::{Boxes, CheckedSheet, Group, Run};
use policy::{BOX_BYTES, Box, COUNT_BYTES, FIELDS, GATE_MOST, Packet, Range, TOTAL_MOST};

// The numbers of a row: for each field its low, and how far its high lies above it.
const ROW_NUMBERS: usize = 2 * FIELDS;

// Behind the room for the rows of A and of the cell list stand the fronts: for each rule of A how many boxes stand before its group, and
// at A's end how many there are.
const FRONTS: usize = ROW_NUMBERS * (GATE_MOST + TOTAL_MOST);

// Room for the rows and the fronts.
pub const TABLE_NUMBERS: usize = FRONTS + (GATE_MOST + 1);

// A sheet that passes check, and the table of its rules: plain numbers, as a sheet's bytes are, so that one search goes over both.
#[derive(Clone, Copy)]
pub struct TabledSheet<'a> {
    pub sheet: CheckedSheet<'a>,
    pub table: &'a [u32],
    pub ghost tabled: { Tabled sheet.bytes.now sheet.layout table.now },
}

// Whether the row that begins at `at` has the packet. A field outside its range ends the row. Of each field the compiler compares the
// row's two numbers as they are: the low is added here and taken away again.
fn row_has(p: Packet, table: &[u32], at: usize) -> bool
    requires { (at + row_size ≤ length table.now) × Proper (row_in (drop at table.now)) }
    ensures { result ≡ inside (packet_of p) (row_in (drop at table.now)) }
{
    let values = p.values;
    for k in 0..FIELDS {
        let low = table[at + 2 * k];
        let range = Range {
            low,
            high: low + table[at + 2 * k + 1],
        };
        if !is_within(values[k], range) {
            return false;
        }
    }
    true
}

// The row of a box, from `at` on.
fn put_row(table: &mut [u32], at: usize, b: Box)
    requires { (at + row_size ≤ length table.old) × Proper (region_of b) }
    ensures { table.new ≡ sets table.old at (row_numbers (region_of b)) }
{
    for k in 0..FIELDS {
        let range = b.range(k);
        table[at + 2 * k] = range.low;
        table[at + 2 * k + 1] = range.high - range.low;
    }
}

// The rows of a run of boxes in a sheet's bytes, from `at` on. The run says how far apart they are, so the walk counts where it is.
fn put_rows(table: &mut [u32], at: usize, sheet: &[u8], run: Run)
    requires { (at + row_size * run.count ≤ length table.old) × Holds box_size box_in sheet.now run (run_boxes box_in sheet.now run) }
    ensures { table.new ≡ sets table.old at (rows_numbers (run_boxes box_in sheet.now run)) }
{
    let mut p = at;
    let mut start = run.from;
    for _ in 0..run.count {
        put_row(table, p, wire::box_at(sheet, start));
        p += ROW_NUMBERS;
        start += run.step;
    }
}

// The rows of the boxes of n groups, from `at` on. A group's length stands in its bytes, so the walk counts where it is.
fn put_groups(table: &mut [u32], at: usize, sheet: &[u8], from: usize, n: usize)
    requires { (from + run_size n (drop from sheet.now) ≤ length sheet.now) × (at + row_size * box_count n (drop from sheet.now) ≤ length table.old) × Each (Each Proper) (groups_from n (drop from sheet.now)) }
    ensures { table.new ≡ sets table.old at (rows_numbers (together (groups_from n (drop from sheet.now)))) }
{
    let mut p = at;
    let mut start = from;
    for _ in 0..n {
        let count = wire::count_at(sheet, start);
        let run = Run {
            from: start + COUNT_BYTES,
            step: BOX_BYTES,
            count,
        };
        put_rows(table, p, sheet, run);
        p += ROW_NUMBERS * count;
        start = start + COUNT_BYTES + BOX_BYTES * count;
    }
}

// The fronts of a sheet's gate rules. A group's length stands in its bytes, so the walk counts where it is.
fn put_fronts(table: &mut [u32], sheet: CheckedSheet<'_>)
    requires { table_size ≤ length table.old }
    ensures { Fronts (pair_at sheet.entry.layout sheet.entry.bytes.now) table.new }
{
    let gate = sheet.layout.order.gate;
    let mut boxes: usize = 0;
    let mut start = sheet.layout.from;
    for k in 0..gate {
        table[FRONTS + k] = boxes as u32;
        if !sheet.gate_rule(k).is_allow() {
            let count = wire::count_at(sheet.bytes, start);
            boxes += count;
            start = start + COUNT_BYTES + BOX_BYTES * count;
        }
    }
    table[FRONTS + gate] = boxes as u32;
}

// The table of a sheet: its fronts, the rows of A, and those of the cell list. `TabledSheet::new` makes it where it serves one loan; made
// here, it stays behind when the loan is over.
pub fn put_table(table: &mut [u32], sheet: CheckedSheet<'_>)
    requires { table_size ≤ length table.old }
    ensures { Tabled sheet.entry.bytes.now sheet.entry.layout table.new }
{
    let layout = sheet.layout;
    let gate = sheet.gate();
    let own = sheet.own();
    let boxes = layout.boxes;
    put_fronts(table, sheet);
    put_rows(table, 0, sheet.bytes, gate);
    put_groups(
        table,
        ROW_NUMBERS * gate.count,
        sheet.bytes,
        layout.from,
        layout.groups,
    );
    put_rows(table, ROW_NUMBERS * (gate.count + boxes), sheet.bytes, own);
}

// The front of the rule at a place of A.
fn front_at(table: &[u32], place: usize) -> usize
    requires { fronts_at + place < length table.now }
    ensures { result ≡ get_or table.now (fronts_at + place) 0 }
{
    table[FRONTS + place] as usize
}

impl<'a> TabledSheet<'a> {
    // A sheet with its table in the numbers that are lent: a slice and no array, since more may be lent than the table takes.
    pub fn new(sheet: CheckedSheet<'a>, table: &'a mut [u32]) -> TabledSheet<'a>
        requires { table_size ≤ length table.old }
        ensures { pair_at result.sheet.layout result.sheet.bytes.now ≡ pair_at sheet.entry.layout sheet.entry.bytes.now }
    {
        put_table(table, sheet);
        TabledSheet { sheet, table }
    }
}

impl<'a> Boxes for TabledSheet<'a> {
    ghost pair = { λ t. pair_at t.sheet.layout t.sheet.bytes.now };

    ghost numbers = { λ t. t.table.now };

    ghost size = { row_size };

    ghost region_in = { row_in };

    ghost checks = { λ t. (t.sheet.bytes.now, t.sheet.checked.checks) };

    fn sheet(&self) -> CheckedSheet<'_> {
        self.sheet
    }

    fn has(self, at: usize, p: Packet) -> bool {
        row_has(p, self.table, at)
    }

    fn gate(self) -> Run {
        Run {
            from: 0,
            step: ROW_NUMBERS,
            count: self.sheet.layout.order.gate,
        }
    }

    fn own(self) -> Run {
        let layout = self.sheet.layout;
        Run {
            from: ROW_NUMBERS * (layout.order.gate + layout.boxes),
            step: ROW_NUMBERS,
            count: layout.order.own,
        }
    }

    // A group ends where that of the next rule begins.
    fn group(self, place: usize) -> Group {
        let front = front_at(self.table, place);
        let count = front_at(self.table, place + 1) - front;
        Group {
            front,
            run: Run {
                from: ROW_NUMBERS * (self.sheet.layout.order.gate + front),
                step: ROW_NUMBERS,
                count,
            },
        }
    }
}
