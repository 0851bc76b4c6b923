// Whether a box has a packet, and lookup of a packet in list bytes.
#![tactic(auto)]

ghost use Rattle.std.specs.Prelude.{◌≡◌, ◌≤◌, length, drop, IfOk};
ghost use Rattle.policy.specs.Fields.{count_size, limits};
ghost use Rattle.policy.specs.Ranges.{within, inside, Whole};
ghost use Rattle.policy.specs.Values.{range_of, packet_of, region_of};
ghost use Rattle.wire.specs.Records.{rules_in};
ghost use Rattle.filter.specs.Lookup.{look_from, lookup, lookup_number, verdict};
ghost use Rattle.filter.specs.Steps.{miss_of, InTotal};
ghost use Rattle.wire.specs.Lists.{list_size};

use policy::{
    Box, COUNT_BYTES, FIELDS, Packet, RECORD_BYTES, Range, Refusal, TOTAL_MOST, refused_number,
};
use wire::{count_at, rule_at};

// The rule that decides: its place, and its action as the record has it, which the number for C is computed with.
#[derive(Clone, Copy)]
pub struct Decision {
    pub place: usize,
    pub action: u32,
}

// The rule that decides, or the refusal.
pub type Verdict = Result<Decision, Refusal>;

// One compare for both ends: what is below low wraps round to the highest numbers.
pub fn is_within(x: u32, r: Range) -> bool
    requires { r.low ≤ r.high }
    ensures { result ≡ within x (range_of r) }
{
    x.wrapping_sub(r.low) <= r.high - r.low
}

// 1 for a field outside its range, 0 for one inside it.
fn miss(x: u32, r: Range) -> u32
    requires { r.low ≤ r.high }
    ensures { (result ≡ miss_of x (range_of r)) × (result ≤ 1) }
{
    !is_within(x, r) as u32
}

// A box that is not empty has the packet if no field is outside its range. The misses are counted, and none ends the count: so the
// time does not hang on which field misses.
pub fn is_inside(p: Packet, bounds: Box) -> bool
    requires { Whole (region_of bounds) }
    ensures { result ≡ inside (packet_of p) (region_of bounds) }
{
    let values = p.values;
    let mut missed: u32 = 0;
    for k in 0..FIELDS {
        missed += miss(values[k], bounds.range(k));
    }
    missed == 0
}

// The rules of a list of so many, one after another. A record is tested first. Then its fields are tried from the last, the protocol,
// to the first, since in a storm most rules miss in protocol or destination port; one outside its range ends the rule: the loops are
// labelled, and the inner one is left by `continue` of the outer, which is this lookup's fixed form.
fn scan(p: Packet, list: &[u8], count: usize) -> Verdict
    requires { length list.now ≡ list_size count }
    ensures { verdict result ≡ look_from 0 (packet_of p) (rules_in count (drop count_size list.now)) }
{
    let values = p.values;
    'rules: for i in 0..count {
        let r = rule_at(list, COUNT_BYTES + RECORD_BYTES * i);
        if !r.is_sound() {
            return Err(Refusal::RuleBad);
        }
        'fields: for k in (0..FIELDS).rev() {
            if !is_within(values[k], r.bounds.range(k)) {
                continue 'rules;
            }
        }
        return Ok(Decision {
            place: i,
            action: r.action,
        });
    }
    Err(Refusal::NotComplete)
}

// A list may have at most so many rules; another cell filter takes another number.
pub fn lookup_within(most: usize, p: Packet, list: &[u8]) -> Verdict
    ensures { verdict result ≡ lookup most (packet_of p) list.now }
{
    if list.len() < COUNT_BYTES {
        return Err(Refusal::LengthWrong);
    }
    let count = count_at(list, 0);
    if count < 1 || most < count {
        return Err(Refusal::CountOutside);
    }
    if list.len() != COUNT_BYTES + RECORD_BYTES * count {
        return Err(Refusal::LengthWrong);
    }
    scan(p, list, count)
}

pub fn lookup(p: Packet, list: &[u8]) -> Verdict
    ensures { verdict result ≡ lookup limits.total (packet_of p) list.now }
{
    lookup_within(TOTAL_MOST, p, list)
}

// A verdict as one number. Not a From, since it asks something of the verdict.
pub fn verdict_number(v: Verdict) -> u32
    requires { IfOk v InTotal }
    ensures { result ≡ lookup_number (verdict v) }
{
    match v {
        Ok(decision) => 2 * decision.place as u32 + decision.action,
        Err(f) => refused_number(f),
    }
}

pub fn lookup_number(p: Packet, list: &[u8]) -> u32
    ensures { result ≡ lookup_number (lookup limits.total (packet_of p) list.now) }
{
    verdict_number(lookup(p, list))
}
