// Readers of sections, of order sheets, pair sheets and lists.
#![tactic(auto)]

ghost use Rattle.std.specs.Prelude.{◌≡◌, ◌+◌, ◌≤◌, length, drop};
ghost use Rattle.lists.specs.Lists.{every};
ghost use Rattle.policy.specs.Fields.{highest, count_size};
ghost use Rattle.policy.specs.Ranges.{proper};
ghost use Rattle.policy.specs.Rules.{sound, denies};
ghost use Rattle.wire.specs.Records.{boxes_in};
ghost use Rattle.wire.specs.Lists.{list_size};
ghost use Rattle.sheet.specs.Pairs.{group_size};
ghost use Rattle.sheet.specs.Steps.{rules_of, SectionRead, ListRead, ListsRead, OrderRead, GroupsRead, PairRead};

use policy::{BOX_BYTES, COUNT_BYTES, GATE_MOST, OWN_MOST, RECORD_BYTES, Refusal, TOTAL_MOST};

// The largest A list, B list, order sheet and pair sheet.
pub const GATE_BYTES: usize = COUNT_BYTES + RECORD_BYTES * GATE_MOST;

pub const OWN_BYTES: usize = COUNT_BYTES + RECORD_BYTES * OWN_MOST;

pub const ORDER_BYTES: usize = GATE_BYTES + OWN_BYTES;

pub const PAIR_BYTES: usize = ORDER_BYTES
    + COUNT_BYTES
    + COUNT_BYTES * GATE_MOST
    + BOX_BYTES * (TOTAL_MOST - OWN_MOST);

// A section: how many rules it has and where it ends.
#[derive(Clone, Copy)]
pub struct Section {
    pub count: usize,
    pub next: usize,
}

// Where the parts of an order sheet lie: the counts of A and B, where B begins and where it ends.
#[derive(Clone, Copy)]
pub struct OrderLayout {
    pub gate: usize,
    pub own: usize,
    pub middle: usize,
    pub end: usize,
}

// Groups: how many boxes they have together and where they end. A type beside `Section`, so that none is taken for the other.
#[derive(Clone, Copy)]
struct Groups {
    count: usize,
    next: usize,
}

// Where the parts of a pair sheet lie: those of its order sheet, which is its front; how many groups and boxes section C has, and
// where the groups begin, behind their count, and end.
#[derive(Clone, Copy)]
pub struct PairLayout {
    pub order: OrderLayout,
    pub groups: usize,
    pub boxes: usize,
    pub from: usize,
    pub end: usize,
}

fn all_sound(s: &[u8], n: usize) -> bool
    requires { list_size n ≤ length s.now }
    ensures { result ≡ every sound (rules_of n s.now) }
{
    (0..n).all(|i| wire::rule_at(s, COUNT_BYTES + RECORD_BYTES * i).is_sound())
}

fn all_proper(s: &[u8], n: usize) -> bool
    requires { group_size n ≤ length s.now }
    ensures { result ≡ every (proper highest) (boxes_in n (drop count_size s.now)) }
{
    (0..n).all(|i| wire::box_at(s, COUNT_BYTES + BOX_BYTES * i).is_proper())
}

// The deny rules of the section of n rules that the bytes begin with.
pub fn count_denies(s: &[u8], n: usize) -> usize
    requires { list_size n ≤ length s.now }
    ensures { result ≡ denies (rules_of n s.now) }
{
    let mut count: usize = 0;
    for i in 0..n {
        if !wire::rule_at(s, COUNT_BYTES + RECORD_BYTES * i).is_allow() {
            count += 1;
        }
    }
    count
}

// The section at the front of the part of a sheet that is handed over.
pub fn read_section(s: &[u8], most: usize) -> Result<Section, Refusal>
    ensures { SectionRead most s.now result }
{
    if s.len() < COUNT_BYTES {
        return Err(Refusal::LengthWrong);
    }
    let count = wire::count_at(s, 0);
    if count < 1 || most < count {
        return Err(Refusal::CountOutside);
    }
    let next = COUNT_BYTES + RECORD_BYTES * count;
    if s.len() < next {
        return Err(Refusal::LengthWrong);
    }
    if !all_sound(s, count) {
        return Err(Refusal::RuleBad);
    }
    if !wire::box_at(s, next - RECORD_BYTES).is_full() {
        return Err(Refusal::NotComplete);
    }
    Ok(Section { count, next })
}

// A list by itself: one section, and nothing behind it.
pub fn read_list(s: &[u8], most: usize) -> Result<Section, Refusal>
    ensures { ListRead most s.now result }
{
    let section = read_section(s, most)?;
    if section.next < s.len() {
        return Err(Refusal::LengthWrong);
    }
    Ok(section)
}

// Section A, and section B, which begins wherever A ends.
fn read_lists(s: &[u8]) -> Result<OrderLayout, Refusal>
    ensures { ListsRead s.now result }
{
    let gate = read_section(s, GATE_MOST)?;
    let middle = gate.next;
    let own = read_section(&s[middle..], OWN_MOST)?;
    Ok(OrderLayout {
        gate: gate.count,
        own: own.count,
        middle,
        end: middle + own.next,
    })
}

// An order sheet: A and B, and nothing behind them.
pub fn read_order(s: &[u8]) -> Result<OrderLayout, Refusal>
    ensures { OrderRead s.now result }
{
    let order = read_lists(s)?;
    if order.end < s.len() {
        return Err(Refusal::LengthWrong);
    }
    Ok(order)
}

// The group at the front of the bytes, with what boxes and own rules came to before it.
fn read_group(s: &[u8], total: usize, most: usize) -> Result<Groups, Refusal>
    requires { total ≤ most }
    ensures { GroupsRead most 1 total s.now result }
{
    if s.len() < COUNT_BYTES {
        return Err(Refusal::LengthWrong);
    }
    let count = wire::count_at(s, 0);
    if most - total < count {
        return Err(Refusal::TooManyBoxes);
    }
    let next = COUNT_BYTES + BOX_BYTES * count;
    if s.len() < next {
        return Err(Refusal::LengthWrong);
    }
    if !all_proper(s, count) {
        return Err(Refusal::RuleBad);
    }
    Ok(Groups { count, next })
}

// So many groups one after another. A group's length stands in its bytes, so the walk counts where it is.
fn read_groups(s: &[u8], n: usize, own: usize, most: usize) -> Result<Groups, Refusal>
    requires { own ≤ most }
    ensures { GroupsRead most n own s.now result }
{
    let mut total = own;
    let mut at: usize = 0;
    for _ in 0..n {
        let group = read_group(&s[at..], total, most)?;
        total += group.count;
        at += group.next;
    }
    Ok(Groups {
        count: total - own,
        next: at,
    })
}

// A, B and, behind them, section C: the count of A's deny rules, and so many groups.
pub fn read_pair(s: &[u8]) -> Result<PairLayout, Refusal>
    ensures { PairRead s.now result }
{
    let order = read_lists(s)?;
    let at = order.end;
    if s.len() - at < COUNT_BYTES {
        return Err(Refusal::LengthWrong);
    }
    let groups = count_denies(s, order.gate);
    if wire::count_at(s, at) != groups {
        return Err(Refusal::GroupsDiffer);
    }
    let from = at + COUNT_BYTES;
    let third = read_groups(&s[from..], groups, order.own, TOTAL_MOST)?;
    if third.next < s.len() - from {
        return Err(Refusal::LengthWrong);
    }
    Ok(PairLayout {
        order,
        groups,
        boxes: third.count,
        from,
        end: from + third.next,
    })
}
