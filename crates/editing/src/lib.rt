// Edit: a pair sheet changed at one place of A or of B. Sizes (1), the sheet read, the list and its place (9), the record, the new
// list made in another buffer and read there, its groups and the room for them, the sheet written, the work buffer cleared. The
// sheet is not touched before the edit is known to be accepted.
// A sheet and its layout are two parameters, since the layout tells what the sheet was: a type of both would be wrong once it is written.
// What is lent may be longer than it has to be, and what lies behind is promised too, so that each step asks for the length.
#![tactic(auto)]

ghost use Rattle.std.specs.Prelude.{◌≡◌, ◌≤◌, length};
ghost use Rattle.policy.specs.Fields.{work_size};
ghost use Rattle.sheet.specs.Pairs.{pair_size};
ghost use Rattle.promises.specs.Edits.{asked, Edits};
ghost use Rattle.editing.specs.Steps.{Revising, Revised};

use edit_groups::{find_around, regroup};
use edit_list::change_list;
use groups::WORK_BYTES;
use policy::{Answer, GATE_MOST, OWN_MOST, RECORD_BYTES, Refusal};
use promises::Request;
use sheet::{GATE_BYTES, PAIR_BYTES, PairLayout};

// The largest A, and a record more: a new count is tested once it is written.
const LIST_BYTES: usize = GATE_BYTES + RECORD_BYTES;

// An edit of A: the new A made and read, and its groups made and written. The new A has a buffer of its own, since the work buffer is
// needed for its groups, and of a fixed size, since there is no heap.
fn revise_gate(
    sheet: &mut [u8],
    old: PairLayout,
    request: Request,
    new: &[u8],
    work: &mut [u8],
) -> Answer
    requires { Revising sheet.old old work.old × (request.which ≡ 0) }
    ensures { Revised sheet.old old.end (asked request new.now) work.old result sheet.new work.new }
{
    let middle = old.order.middle;
    let used = old.end;
    let mut out = [0u8; LIST_BYTES];
    let end = change_list(&sheet[..middle], old.order.gate, request, new, &mut out)?;
    let list = &out[..end];
    let section = sheet::read_list(list, GATE_MOST)?;
    let around = find_around(&sheet[..used], old, request, list, section.count);
    regroup(sheet, old, list, around, work)
}

// An edit of B: the new B made in the work buffer and read there, and put where the old one was. Every group is kept, so that
// section C is only moved along.
fn revise_own(
    sheet: &mut [u8],
    old: PairLayout,
    request: Request,
    new: &[u8],
    work: &mut [u8],
) -> Answer
    requires { Revising sheet.old old work.old × (request.which ≡ 1) }
    ensures { Revised sheet.old old.end (asked request new.now) work.old result sheet.new work.new }
{
    let middle = old.order.middle;
    let third = old.order.end;
    let end = change_list(&sheet[middle..third], old.order.own, request, new, work)?;
    let list = &work[..end];
    let section = sheet::read_list(list, OWN_MOST)?;
    if !policy::has_room(old.boxes, section.count) {
        return Err(Refusal::TooManyBoxes);
    }
    Ok(edit_sheet::put_own(sheet, old, list))
}

// The sheet of the stated length read, and the list chosen: there are two, and any other is refused as a place that is not there.
fn revise(sheet: &mut [u8], used: usize, request: Request, new: &[u8], work: &mut [u8]) -> Answer
    requires { (pair_size ≤ length sheet.old) × (used ≤ length sheet.old) × (work_size ≤ length work.old) }
    ensures { Revised sheet.old used (asked request new.now) work.old result sheet.new work.new }
{
    let old = sheet::read_pair(&sheet[..used])?;
    match request.which {
        0 => revise_gate(sheet, old, request, new, work),
        1 => revise_own(sheet, old, request, new, work),
        _ => Err(Refusal::NoPlace),
    }
}

// Edit: a rule put in, taken out or replaced at a place of A or B of a pair sheet of a stated length; the answer is its new length.
// The buffer and the length of the sheet in it are two parameters, as C lends them.
pub fn edit(sheet: &mut [u8], used: usize, request: Request, new: &[u8], work: &mut [u8]) -> Answer
    ensures { Edits sheet.old used (asked request new.now) work.old result sheet.new work.new }
{
    if sheet.len() < PAIR_BYTES || sheet.len() < used || work.len() < WORK_BYTES {
        return Err(Refusal::BufferShort);
    }
    let answer = revise(sheet, used, request, new, work);
    wire::zero(work, 0, WORK_BYTES);
    answer
}
