// Check: a pair sheet read, its groups drafted anew, and the draft compared with section C.
// What is lent may be longer than it has to be, and what lies behind is promised too, so that each step asks for the length.
#![tactic(auto)]

ghost use Rattle.std.specs.Prelude.{◌≡◌, ◌≤◌, length, drop};
ghost use Rattle.policy.specs.Fields.{work_size};
ghost use Rattle.wire.specs.Buffers.{zeroed};
ghost use Rattle.promises.specs.Calls.{Checks};
ghost use Rattle.checking.specs.Steps.{SameGroups, CheckRead};

use draft::{DRAFT_BYTES, Drafted};
use groups::WORK_BYTES;
use policy::{Answer, Refusal};
use sheet::PairLayout;

// Whether the draft, as far as it goes, is the sheet's groups: as many boxes, and the same bytes.
fn is_same(sheet: &[u8], layout: PairLayout, draft: &[u8], drafted: Drafted) -> bool
    requires { (layout.from ≤ length sheet.now) × (drafted.boxes ≡ layout.boxes → drafted.end ≤ length draft.now) }
    ensures { SameGroups sheet.now layout draft.now drafted result }
{
    drafted.boxes == layout.boxes && draft[..drafted.end] == sheet[layout.from..]
}

// The pair sheet read, its groups drafted anew, and the draft compared with section C. The draft is an array with its end beside it,
// since there is no heap.
fn compare(sheet: &[u8], work: &mut [u8]) -> Result<PairLayout, Refusal>
    requires { work_size ≤ length work.old }
    ensures { CheckRead sheet.now result × (drop work_size work.new ≡ drop work_size work.old) }
{
    let layout = sheet::read_pair(sheet)?;
    let mut draft = [0u8; DRAFT_BYTES];
    let drafted = draft::draft_all(sheet, layout.order.gate, &mut draft, work)?;
    if !is_same(sheet, layout, &draft, drafted) {
        return Err(Refusal::GroupsDiffer);
    }
    Ok(layout)
}

// The layout of a pair sheet that passes check, or the refusal; the work buffer is zero at its front, after a refusal too.
pub fn checked(sheet: &[u8], work: &mut [u8]) -> Result<PairLayout, Refusal>
    requires { work_size ≤ length work.old }
    ensures { CheckRead sheet.now result × (work.new ≡ zeroed 0 work_size work.old) }
{
    let layout = compare(sheet, work);
    wire::zero(work, 0, WORK_BYTES);
    layout
}

// Check: a length of 0 says that the sheet's section C is what its A gives; a length, since C gets a refusal or a length of each call.
pub fn check(sheet: &[u8], work: &mut [u8]) -> Answer
    ensures { Checks sheet.now work.old result work.new }
{
    if work.len() < WORK_BYTES {
        return Err(Refusal::BufferShort);
    }
    checked(sheet, work)?;
    Ok(0)
}
