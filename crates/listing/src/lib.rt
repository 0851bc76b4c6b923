// Cell list and gate list: a pair sheet checked, and a list to load written from it.
#![tactic(auto)]

ghost use Rattle.std.specs.Prelude.{◌≡◌, ◌+◌, ◌*◌, ◌≤◌, length, drop};
ghost use Rattle.std.proofs.lemmas.List.Edits.{sets};
ghost use Rattle.policy.specs.Fields.{box_size, count_size, record_size};
ghost use Rattle.policy.specs.Rules.{rule, full};
ghost use Rattle.policy.specs.Values.{rule_of};
ghost use Rattle.sheet.specs.Steps.{pair_at, PairLaid, box_count};
ghost use Rattle.promises.specs.Calls.{Lists, cell_bytes, cell_list_size, gate_bytes, gate_list_size};
ghost use Rattle.listing.specs.Steps.{box_records, group_records, ListPut, CheckedWithRoom};

use groups::WORK_BYTES;
use policy::{
    ALLOW, Answer, BOX_BYTES, COUNT_BYTES, DENY, FULL, RECORD_BYTES, Refusal, Rule, TOTAL_MOST,
};
use sheet::PairLayout;

// What the cell list and the gate list are lent at least.
pub const CELL_LIST_BYTES: usize = COUNT_BYTES + RECORD_BYTES * TOTAL_MOST;

pub const GATE_LIST_BYTES: usize = COUNT_BYTES + RECORD_BYTES;

// The n boxes that the sheet has from `from` on, as deny records in the list from `at` on.
fn deny_boxes(out: &mut [u8], at: usize, sheet: &[u8], from: usize, n: usize)
    requires { (from + box_size * n ≤ length sheet.now) × (at + record_size * n ≤ length out.old) }
    ensures { out.new ≡ sets out.old at (box_records n (drop from sheet.now)) }
{
    for i in 0..n {
        let bounds = wire::box_at(sheet, from + BOX_BYTES * i);
        wire::put_rule(
            out,
            at + RECORD_BYTES * i,
            Rule {
                bounds,
                action: DENY,
            },
        );
    }
}

// The boxes of so many groups, which the sheet has from `from` on, as deny records in the list from `at` on. A group's
// length stands in its bytes, so that the walk counts where it is.
fn deny_groups(out: &mut [u8], at: usize, sheet: &[u8], from: usize, groups: usize)
    requires { (from + (count_size * groups + box_size * box_count groups (drop from sheet.now)) ≤ length sheet.now) × (at + record_size * box_count groups (drop from sheet.now) ≤ length out.old) }
    ensures { out.new ≡ sets out.old at (group_records groups (drop from sheet.now)) }
{
    let mut start = from;
    let mut to = at;
    for _ in 0..groups {
        let n = wire::count_at(sheet, start);
        start += COUNT_BYTES;
        deny_boxes(out, to, sheet, start, n);
        start += BOX_BYTES * n;
        to += RECORD_BYTES * n;
    }
}

// The cell list of a pair sheet of this layout, and zeros behind it; its length. No other step takes both sheet and layout, so that a type
// of both would be made only to be taken apart here.
fn put_cell_list(out: &mut [u8], sheet: &[u8], layout: PairLayout) -> usize
    requires { PairLaid sheet.now layout × (cell_list_size ≤ length out.old) }
    ensures { ListPut (cell_bytes (pair_at layout sheet.now)) cell_list_size out.old result out.new }
{
    let boxes = layout.boxes;
    let own = layout.order.own;
    let first = layout.order.middle + COUNT_BYTES;
    let behind = layout.order.end;
    wire::put_count(out, 0, boxes + own);
    deny_groups(out, COUNT_BYTES, sheet, layout.from, layout.groups);
    let start = COUNT_BYTES + RECORD_BYTES * boxes;
    let end = wire::put_bytes(out, start, &sheet[first..behind]);
    wire::zero(out, end, CELL_LIST_BYTES);
    end
}

// The layout of a pair sheet that passes check, where the list has room for so many bytes and the work buffer is long enough.
fn checked_with_room(
    sheet: &[u8],
    out: &[u8],
    room: usize,
    work: &mut [u8],
) -> Result<PairLayout, Refusal>
    ensures { CheckedWithRoom sheet.now out.now room work.old result work.new }
{
    if out.len() < room || work.len() < WORK_BYTES {
        return Err(Refusal::BufferShort);
    }
    checking::checked(sheet, work)
}

// Cell list: check, then every group's boxes as deny rules and the own rules; the answer is the list's length.
pub fn cell_list(sheet: &[u8], out: &mut [u8], work: &mut [u8]) -> Answer
    ensures { Lists cell_bytes cell_list_size sheet.now out.old work.old result out.new work.new }
{
    let layout = checked_with_room(sheet, out, CELL_LIST_BYTES, work)?;
    Ok(put_cell_list(out, sheet, layout))
}

// The rule that allows every packet.
fn allow_all() -> Rule
    ensures { rule_of result ≡ rule full 1 }
{
    Rule {
        bounds: FULL,
        action: ALLOW,
    }
}

// Gate list: check, then one full allow rule, which takes all that is lent at least; the answer is the list's length.
pub fn gate_list(sheet: &[u8], out: &mut [u8], work: &mut [u8]) -> Answer
    ensures { Lists gate_bytes gate_list_size sheet.now out.old work.old result out.new work.new }
{
    checked_with_room(sheet, out, GATE_LIST_BYTES, work)?;
    wire::put_count(out, 0, 1);
    wire::put_rule(out, COUNT_BYTES, allow_all());
    Ok(GATE_LIST_BYTES)
}
