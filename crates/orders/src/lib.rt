// The calls that split an order sheet into its two lists, and join one from them.
#![tactic(auto)]

ghost use Rattle.std.specs.Prelude.{◌≡◌, ◌++◌, ◌+◌, ◌≤◌, length};
ghost use Rattle.wire.specs.Buffers.{filled};
ghost use Rattle.orders.specs.Split.{Split};
ghost use Rattle.orders.specs.Join.{Join};

use policy::{Answer, GATE_MOST, OWN_MOST, Refusal};
use sheet::{GATE_BYTES, ORDER_BYTES, OWN_BYTES};

// An order sheet into its A list and its B list; the answer is the length of the A list.
pub fn split(sheet: &[u8], a: &mut [u8], b: &mut [u8]) -> Answer
    ensures { Split sheet.now a.old b.old result a.new b.new }
{
    if a.len() < GATE_BYTES || b.len() < OWN_BYTES {
        return Err(Refusal::BufferShort);
    }
    let middle = sheet::read_order(sheet)?.middle;
    wire::fill(a, GATE_BYTES, &sheet[..middle]);
    wire::fill(b, OWN_BYTES, &sheet[middle..]);
    Ok(middle)
}

// Two contents one behind the other, and zero behind them up to an end.
fn fill_both(out: &mut [u8], end: usize, first: &[u8], second: &[u8])
    requires { (length first.now + length second.now ≤ end) × (end ≤ length out.old) }
    ensures { out.new ≡ filled end out.old (first.now ++ second.now) }
{
    let middle = first.len();
    out[..middle].copy_from_slice(first);
    wire::fill(&mut out[middle..], end - middle, second);
}

// An order sheet from its A list and its B list; the answer is its length.
pub fn join(a: &[u8], b: &[u8], sheet: &mut [u8]) -> Answer
    ensures { Join a.now b.now sheet.old result sheet.new }
{
    if sheet.len() < ORDER_BYTES {
        return Err(Refusal::BufferShort);
    }
    sheet::read_list(a, GATE_MOST)?;
    sheet::read_list(b, OWN_MOST)?;
    fill_both(sheet, ORDER_BYTES, a, b);
    Ok(a.len() + b.len())
}
