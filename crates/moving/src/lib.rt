// Move: an order sheet read, all groups of its A drafted, and the pair sheet written if there is room for the boxes. Nothing that is
// lent is touched before the call is known to be accepted, but the work buffer.
// What is lent may be longer than it has to be, and what lies behind is promised too, so that each step asks for the length.
#![tactic(auto)]

ghost use Rattle.std.specs.Prelude.{◌≡◌, ◌≤◌, length};
ghost use Rattle.policy.specs.Fields.{work_size};
ghost use Rattle.wire.specs.Buffers.{filled};
ghost use Rattle.sheet.specs.Pairs.{pair_size};
ghost use Rattle.draft.specs.Steps.{sheet_of};
ghost use Rattle.promises.specs.Calls.{Moves};
ghost use Rattle.moving.specs.Steps.{PairPut, Planned};

use draft::DRAFT_BYTES;
use groups::WORK_BYTES;
use policy::{Answer, COUNT_BYTES, Refusal};
use sheet::PAIR_BYTES;

// The pair sheet: the order sheet, the count of groups, the groups, and zeros behind them; its length.
fn put_pair(sheet: &mut [u8], order: &[u8], groups: usize, draft: &[u8]) -> usize
    requires { PairPut sheet.old order.now groups draft.now }
    ensures { (result ≡ length (sheet_of order.now groups draft.now)) × (sheet.new ≡ filled pair_size sheet.old (sheet_of order.now groups draft.now)) }
{
    let at = wire::put_bytes(sheet, 0, order);
    wire::put_count(sheet, at, groups);
    let from = at + COUNT_BYTES;
    draft::put_groups(sheet, from, groups, draft);
    let end = from + draft.len();
    wire::zero(sheet, end, PAIR_BYTES);
    end
}

// The order sheet read, its groups drafted (6), the room for them tested (7), and the pair sheet written. The draft is local, since what
// is lent is written only once the move is accepted, and an array with its end beside it, since there is no heap. Not inlined: so the
// draft leaves the stack with this call, and does not lie beside that of a check that follows.
#[inline(never)]
fn plan(order: &[u8], sheet: &mut [u8], work: &mut [u8]) -> Answer
    requires { (pair_size ≤ length sheet.old) × (work_size ≤ length work.old) }
    ensures { Planned order.now sheet.old work.old result sheet.new work.new }
{
    let layout = sheet::read_order(order)?;
    let mut draft = [0u8; DRAFT_BYTES];
    let drafted = draft::draft_all(order, layout.gate, &mut draft, work)?;
    if !policy::has_room(drafted.boxes, layout.own) {
        return Err(Refusal::TooManyBoxes);
    }
    Ok(put_pair(sheet, order, drafted.groups, &draft[..drafted.end]))
}

// Move: an order sheet in, its pair sheet out; the answer is the pair sheet's length.
pub fn move_order(order: &[u8], sheet: &mut [u8], work: &mut [u8]) -> Answer
    ensures { Moves order.now sheet.old work.old result sheet.new work.new }
{
    if sheet.len() < PAIR_BYTES || work.len() < WORK_BYTES {
        return Err(Refusal::BufferShort);
    }
    let answer = plan(order, sheet, work);
    wire::zero(work, 0, WORK_BYTES);
    answer
}
