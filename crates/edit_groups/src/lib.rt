// The groups of an edited A: which of them are kept and which are worked out anew, and the last step of the edit. With one rule at
// most to work out, its group and those kept behind it are joined in the work buffer; with more of them, they are drafted as in a
// move.
// A sheet and its layout are two parameters, since the layout tells what the sheet was: a type of both would be wrong once it is written.
#![tactic(auto)]

ghost use Rattle.std.specs.Prelude.{◌≡◌, ◌||◌, ◌+◌, ◌*◌, ◌≤◌, length, drop};
ghost use Rattle.policy.specs.Rules.{any_allow};
ghost use Rattle.policy.specs.Move.{alone};
ghost use Rattle.wire.specs.Lists.{list_size};
ghost use Rattle.sheet.specs.Steps.{rules_of, box_count};
ghost use Rattle.edit_sheet.specs.Steps.{groups_at};
ghost use Rattle.edit_groups.specs.Steps.{around_of, AroundReady, NoneDenies, JoinReady, JoinedIn, Gathering, Gathered, Settling, Settled, Regrouping, Regrouped, AllAnew};

use draft::{DRAFT_BYTES, Drafted, draft_groups};
use edit_list::taken_and_put;
use edit_sheet::Kept;
use policy::{Answer, BOX_BYTES, COUNT_BYTES, RECORD_BYTES, Refusal, TOTAL_MOST};
use promises::Request;
use sheet::PairLayout;

// Where the groups of an edited A, which has `count` rules, come from: those before `earlier` and those from `later` up to `groups`
// are kept, and those of the rules from `place` up to `to` are worked out anew between them. No code reads `count`: the contracts say by
// it how many rules of the list make up the new A.
#[derive(Clone, Copy)]
pub struct Around {
    pub earlier: usize,
    pub later: usize,
    pub groups: usize,
    pub place: usize,
    pub to: usize,
    pub count: usize,
}

// Whether an allow is among n rules of a list from a place on, where n is 0 or 1.
fn any_allow(list: &[u8], place: usize, n: usize) -> bool
    requires { (n ≤ 1) × (list_size (place + n) ≤ length list.now) }
    ensures { result ≡ any_allow (drop place (rules_of (place + n) list.now)) }
{
    n != 0 && wire::rule_at(list, COUNT_BYTES + RECORD_BYTES * place).is_allow()
}

// Whether an allow is among the rules taken out of one list at a place, or among those put into the other, one at most of each.
fn is_touched(pair: &[u8], list: &[u8], place: usize, taken: usize, put: usize) -> bool
    requires { (taken ≤ 1) × (put ≤ 1) × (list_size (place + taken) ≤ length pair.now) × (list_size (place + put) ≤ length list.now) }
    ensures { result ≡ any_allow (drop place (rules_of (place + taken) pair.now)) || any_allow (drop place (rules_of (place + put) list.now)) }
{
    any_allow(pair, place, taken) || any_allow(list, place, put)
}

// Where the groups of the new A, of so many rules, come from: those behind the place too are worked out anew where an allow is taken
// out or put in.
pub fn find_around(
    pair: &[u8],
    old: PairLayout,
    request: Request,
    list: &[u8],
    count: usize,
) -> Around
    requires { AroundReady pair.now old request.place request.change list.now count }
    ensures { result ≡ around_of request.place request.change (rules_of old.order.gate pair.now) (rules_of count list.now) }
{
    let place = request.place;
    let groups = old.groups;
    let (taken, put) = taken_and_put(request.change);
    let earlier = sheet::count_denies(pair, place);
    let touched = is_touched(pair, list, place, taken, put);
    let (later, to) = if touched {
        (groups, count)
    } else {
        (earlier + taken, place + put)
    };
    Around {
        earlier,
        later,
        groups,
        place,
        to,
        count,
    }
}

// Whether no rule of a list from the place up to `to` denies, where there is one at most.
fn none_denies(list: &[u8], place: usize, to: usize) -> bool
    requires { (place ≤ to) × (to ≤ place + 1) × (list_size to ≤ length list.now) }
    ensures { NoneDenies list.now place to result }
{
    to == place || any_allow(list, place, to - place)
}

// The n boxes at the front of the work buffer made a group by the count before them, and these bytes put behind it; where they end.
fn join_groups(work: &mut [u8], n: usize, back: &[u8]) -> usize
    requires { JoinReady work.old n back.now }
    ensures { JoinedIn work.old n back.now result work.new }
{
    let size = BOX_BYTES * n;
    wire::copy_up(work, COUNT_BYTES, size);
    wire::put_count(work, 0, n);
    wire::put_bytes(work, COUNT_BYTES + size, back)
}

// At the front of the work buffer the group of what stands at the place, if that is a deny, and these bytes of kept groups behind it;
// how many boxes there then are with those of all that is kept, and where the bytes end; or number 6.
fn gather(
    list: &[u8],
    around: Around,
    boxes: usize,
    back: &[u8],
    work: &mut [u8],
) -> Result<Drafted, Refusal>
    requires { Gathering list.now around.place around.to boxes back.now work.old }
    ensures { Gathered alone list.now around.place around.to boxes back.now work.old result work.new }
{
    if none_denies(list, around.place, around.to) {
        let end = wire::put_bytes(work, 0, back);
        return Ok(Drafted {
            groups: 0,
            boxes,
            end,
        });
    }
    let n = groups::work_out(&list[COUNT_BYTES..], around.place, work)?;
    let sum = boxes + n;
    let end = if sum <= TOTAL_MOST {
        join_groups(work, n, back)
    } else {
        0
    };
    Ok(Drafted {
        groups: 1,
        boxes: sum,
        end,
    })
}

// The last step, once the new groups and those kept behind them are made: the room for all boxes is tested (7), and the pair sheet
// written.
fn settle(
    sheet: &mut [u8],
    old: PairLayout,
    list: &[u8],
    kept: Kept,
    drafted: Drafted,
    made: &[u8],
) -> Answer
    requires { Settling sheet.old old list.now kept drafted made.now }
    ensures { Settled sheet.old old list.now kept drafted made.now result sheet.new }
{
    if !policy::has_room(drafted.boxes, old.order.own) {
        return Err(Refusal::TooManyBoxes);
    }
    let behind = &made[..drafted.end];
    Ok(edit_sheet::put_gate(sheet, old, list, kept, drafted.groups, behind))
}

// The groups of the new A where there is one rule at most to work out.
fn regroup_one(
    sheet: &mut [u8],
    old: PairLayout,
    list: &[u8],
    around: Around,
    work: &mut [u8],
) -> Answer
    requires { Regrouping alone sheet.old old list.now around work.old × (around.to ≤ around.place + 1) }
    ensures { Regrouped alone sheet.old old list.now around work.old result sheet.new work.new }
{
    let from = old.from;
    let used = old.end;
    let gone = around.later - around.earlier;
    let gap = kept::find_gap(&sheet[from..used], around.earlier, gone);
    let next = from + gap.next;
    let left = old.boxes - gap.boxes;
    let drafted = gather(list, around, left, &sheet[next..used], work)?;
    let stay = Kept {
        before: around.earlier,
        size: gap.at,
        behind: around.groups - around.later,
    };
    settle(sheet, old, list, stay, drafted, work)
}

// The groups of the new A where all rules from the place on are to be worked out; those before it have so many boxes. The draft is
// local, since what is lent is written only once the edit is accepted, and an array with its end beside it, since there is no heap.
fn regroup_all(
    sheet: &mut [u8],
    old: PairLayout,
    list: &[u8],
    around: Around,
    front: usize,
    work: &mut [u8],
) -> Answer
    requires { Regrouping alone sheet.old old list.now around work.old × AllAnew around × (front ≡ box_count around.earlier (groups_at old sheet.old)) }
    ensures { Regrouped alone sheet.old old list.now around work.old result sheet.new work.new }
{
    let mut draft = [0u8; DRAFT_BYTES];
    let drafted = draft_groups(
        &list[COUNT_BYTES..],
        around.place,
        around.to,
        front,
        &mut draft,
        work,
    )?;
    let stay = Kept {
        before: around.earlier,
        size: COUNT_BYTES * around.earlier + BOX_BYTES * front,
        behind: 0,
    };
    settle(sheet, old, list, stay, drafted, &draft)
}

// The groups of the new A made, and its pair sheet written if there is room for them. Where no group is kept there is nothing to count;
// with this second call the compiler also leaves the draft in a frame of its own, and other edits do without its 26 KB of stack.
pub fn regroup(
    sheet: &mut [u8],
    old: PairLayout,
    list: &[u8],
    around: Around,
    work: &mut [u8],
) -> Answer
    requires { Regrouping alone sheet.old old list.now around work.old }
    ensures { Regrouped alone sheet.old old list.now around work.old result sheet.new work.new }
{
    if around.to <= around.place + 1 {
        return regroup_one(sheet, old, list, around, work);
    }
    if around.earlier == 0 {
        return regroup_all(sheet, old, list, around, 0, work);
    }
    let from = old.from;
    let used = old.end;
    let front = kept::count_boxes(&sheet[from..used], around.earlier);
    regroup_all(sheet, old, list, around, front, work)
}
