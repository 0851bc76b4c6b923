// Section C under construction: groups worked out anew, one behind another in a local draft, and written to the sheet from there. The
// draft is an array with its end beside it, since there is no heap.
#![tactic(auto)]

ghost use Rattle.std.specs.Prelude.{◌≡◌, ◌++◌, ◌+◌, ◌*◌, ◌≤◌, ◌<◌, length, drop};
ghost use Rattle.std.proofs.lemmas.List.Edits.{sets};
ghost use Rattle.policy.specs.Fields.{box_size, count_size, limits};
ghost use Rattle.policy.specs.Move.{alone};
ghost use Rattle.wire.specs.Numbers.{number_bytes};
ghost use Rattle.sheet.specs.Pairs.{group_size};
ghost use Rattle.draft.specs.Steps.{Appended, Ready, AllReady, DraftedGroups, Laid};

use policy::{BOX_BYTES, COUNT_BYTES, GATE_MOST, RECORD_BYTES, Refusal, TOTAL_MOST};

pub const DRAFT_BYTES: usize = COUNT_BYTES * GATE_MOST + BOX_BYTES * TOTAL_MOST;

// How many groups were worked out, how many boxes there are with those counted before, and where the groups' bytes end.
#[derive(Clone, Copy)]
pub struct Drafted {
    pub groups: usize,
    pub boxes: usize,
    pub end: usize,
}

// The group writer: a count and so many boxes at the front of the part that it is lent.
fn put_group(out: &mut [u8], n: usize, boxes: &[u8])
    requires { (n < 65536) × (length boxes.now ≡ box_size * n) × (group_size n ≤ length out.old) }
    ensures { out.new ≡ sets out.old 0 (number_bytes count_size n ++ boxes.now) }
{
    wire::put_count(out, 0, n);
    wire::put_bytes(out, COUNT_BYTES, boxes);
}

// A group of n boxes behind what the draft holds, unless the boxes, these among them, are more than fit; where the draft ends.
fn append(draft: &mut [u8], at: usize, boxes: usize, n: usize, content: &[u8]) -> usize
    requires { (n < 65536) × (length content.now ≡ box_size * n) × (boxes ≤ limits.total → at + group_size n ≤ length draft.old) }
    ensures { Appended draft.old at boxes n content.now result draft.new }
{
    if TOTAL_MOST < boxes {
        return at;
    }
    put_group(&mut draft[at..], n, content);
    at + COUNT_BYTES + content.len()
}

// The group of the rule at place i, if it denies, behind what the draft holds; or number 6.
fn draft_one(
    rules: &[u8],
    i: usize,
    done: Drafted,
    draft: &mut [u8],
    work: &mut [u8],
) -> Result<Drafted, Refusal>
    requires { Ready rules.now i (i + 1) draft.old done.end done.boxes work.old }
    ensures { DraftedGroups alone rules.now i (i + 1) draft.old done.end done.boxes work.old result draft.new work.new }
{
    let rule = wire::rule_at(rules, RECORD_BYTES * i);
    if rule.is_allow() {
        return Ok(Drafted { groups: 0, ..done });
    }
    let n = groups::work_out(rules, i, work)?;
    let size = BOX_BYTES * n;
    let boxes = done.boxes + n;
    let end = append(draft, done.end, boxes, n, &work[..size]);
    Ok(Drafted {
        groups: 1,
        boxes,
        end,
    })
}

// The groups of the deny rules from one place up to another, at the front of the draft, where so many boxes are counted already; or
// number 6.
pub fn draft_groups(
    rules: &[u8],
    from: usize,
    to: usize,
    boxes: usize,
    draft: &mut [u8],
    work: &mut [u8],
) -> Result<Drafted, Refusal>
    requires { Ready rules.now from to draft.old 0 boxes work.old }
    ensures { DraftedGroups alone rules.now from to draft.old 0 boxes work.old result draft.new work.new }
{
    let mut done = Drafted {
        groups: 0,
        boxes,
        end: 0,
    };
    for i in from..to {
        let one = draft_one(rules, i, done, draft, work)?;
        done = Drafted {
            groups: done.groups + one.groups,
            ..one
        };
    }
    Ok(done)
}

// All groups of the list of `gate` rules that begins the bytes, an order sheet's or a pair sheet's; or number 6.
pub fn draft_all(
    s: &[u8],
    gate: usize,
    draft: &mut [u8],
    work: &mut [u8],
) -> Result<Drafted, Refusal>
    requires { AllReady s.now gate draft.old work.old }
    ensures { DraftedGroups alone (drop count_size s.now) 0 gate draft.old 0 0 work.old result draft.new work.new }
{
    draft_groups(&s[COUNT_BYTES..], 0, gate, 0, draft, work)
}

// The draft's groups written one behind another from `at` on, each by the group writer, which is lent the part of the sheet that
// starts there. A group's length stands in its bytes, so that the walk counts where it is.
pub fn put_groups(sheet: &mut [u8], at: usize, groups: usize, draft: &[u8])
    requires { (Laid groups draft.now) × (at + length draft.now ≤ length sheet.old) }
    ensures { sheet.new ≡ sets sheet.old at draft.now }
{
    let mut from: usize = 0;
    for _ in 0..groups {
        let n = wire::count_at(draft, from);
        let start = from + COUNT_BYTES;
        let end = start + BOX_BYTES * n;
        put_group(&mut sheet[at + from..], n, &draft[start..end]);
        from = end;
    }
}
