// Origin: a pair sheet checked, and a packet traced to the rule of A or B that decides it. On a sheet that passes check that rule is
// found in A, and its box in its own group, or it is found in B; no other group's boxes are tried.
#![tactic(auto)]

ghost use Rattle.std.specs.Prelude.{◌≡◌, [], ◌∷◌, List, ℕ, ◌+◌, ◌≤◌, ◌<◌, length, drop, get_or, MatchResult};
ghost use Rattle.std.proofs.lemmas.List.Edits.{sets};
ghost use Rattle.policy.specs.Fields.{box_size, limits, work_size};
ghost use Rattle.policy.specs.Ranges.{Region, inside};
ghost use Rattle.policy.specs.Rules.{Proper, found, first};
ghost use Rattle.policy.specs.Refusals.{accepted, refused, number_of};
ghost use Rattle.policy.specs.Move.{Pair, cell_list};
ghost use Rattle.policy.specs.Demands.{group_at};
ghost use Rattle.policy.specs.Steps.{box_number, regions};
ghost use Rattle.policy.specs.Values.{packet_of, rule_of};
ghost use Rattle.wire.specs.Records.{box_in};
ghost use Rattle.wire.specs.Buffers.{zeroed};
ghost use Rattle.promises.specs.Calls.{check_of};
ghost use Rattle.sheet.specs.Steps.{pair_at};
ghost use Rattle.origins.specs.Origin.{Origins, origin_size};
ghost use Rattle.origins.specs.Steps.{Checked, place_in, Denies, front_of, run_boxes, Holds, Traced, TraceSmall, TraceTold};

use filter::is_inside;
use groups::WORK_BYTES;
use policy::{Answer, BOX_BYTES, COUNT_BYTES, Packet, RECORD_BYTES, Refusal, Rule};
use sheet::PairLayout;

// The fewest numbers that may be lent.
pub const ORIGIN_NUMBERS: usize = 3;

// A pair sheet that passes check, and where its parts lie.
#[derive(Clone, Copy)]
pub struct CheckedSheet<'a> {
    pub bytes: &'a [u8],
    pub layout: PairLayout,
    pub ghost checked: { Checked bytes.now layout },
}

impl<'a> CheckedSheet<'a> {
    // The sheet that passes check, or the refusal; the work buffer is zero at its front.
    pub fn new(bytes: &'a [u8], work: &mut [u8]) -> Result<CheckedSheet<'a>, Refusal>
        requires { work_size ≤ length work.old }
        ensures checks { MatchResult result (λ sheet. sheet.bytes.now ≡ bytes.now) (λ f. check_of limits bytes.now ≡ refused (number_of f)) }
        ensures cleared { work.new ≡ zeroed 0 work_size work.old }
    {
        let layout = checking::checked(bytes, work)?;
        Ok(CheckedSheet { bytes, layout })
    }

    // How many places the new cell list has.
    pub fn places(self) -> usize
        ensures places { result ≡ length (cell_list (pair_at self.entry.layout self.entry.bytes.now)) }
        ensures few { result ≤ limits.total }
    {
        self.layout.boxes + self.layout.order.own
    }

    // The rule at a place of A.
    pub fn gate_rule(self, place: usize) -> Rule
        requires { place < self.layout.order.gate }
        ensures { rule_of result ≡ place_in (pair_at self.entry.layout self.entry.bytes.now).order.gate place }
    {
        wire::rule_at(self.bytes, COUNT_BYTES + RECORD_BYTES * place)
    }

    // The rule at a place of B.
    fn own_rule(self, place: usize) -> Rule
        requires { place < self.layout.order.own }
        ensures { rule_of result ≡ place_in (pair_at self.entry.layout self.entry.bytes.now).order.own place }
    {
        wire::rule_at(
            self.bytes,
            self.layout.order.middle + COUNT_BYTES + RECORD_BYTES * place,
        )
    }
}

// Boxes one after another: where the first one begins, how far apart they begin and how many there are.
#[derive(Clone, Copy)]
pub struct Run {
    pub from: usize,
    pub step: usize,
    pub count: usize,
}

// A deny rule's group: how many boxes stand before it in the cell list, and its own.
#[derive(Clone, Copy)]
pub struct Group {
    pub front: usize,
    pub run: Run,
}

// The boxes of a sheet that passes check, where a packet is looked for: in the sheet's bytes or in a table of numbers.
pub trait Boxes: Copy {
    // The sheet's pair; the numbers that the boxes are read from, how many of them make a box, and the box that they begin with.
    ghost pair: { Self → Pair };

    ghost numbers: { Self → List ℕ };

    ghost size: { ℕ };

    ghost region_in: { List ℕ → Region };

    fn sheet(&self) -> CheckedSheet<'_>
        ensures { pair_at result.layout result.bytes.now ≡ pair self.now };

    // Whether the box that begins at `at` has the packet.
    fn has(self, at: usize, p: Packet) -> bool
        requires { (at + size ≤ length (numbers self)) × Proper (region_in (drop at (numbers self))) }
        ensures { result ≡ inside (packet_of p) (region_in (drop at (numbers self))) };

    // The boxes of A, of B, and of the deny rule at a place of A.
    fn gate(self) -> Run
        ensures { Holds size region_in (numbers self) result (regions (pair self).order.gate) };

    fn own(self) -> Run
        ensures { Holds size region_in (numbers self) result (regions (pair self).order.own) };

    fn group(self, place: usize) -> Group
        requires { Denies (pair self) place }
        ensures front { result.front ≡ front_of (pair self) place }
        ensures run { Holds size region_in (numbers self) result.run (group_at (pair self) place) };

    // The sheet passes check.
    ghost checks: { (b : Self) → (s : List ℕ) × (check_of limits s ≡ accepted (pair b)) };
}

impl<'a> Boxes for CheckedSheet<'a> {
    ghost pair = { λ s. pair_at s.layout s.bytes.now };

    ghost numbers = { λ s. s.bytes.now };

    ghost size = { box_size };

    ghost region_in = { box_in };

    ghost checks = { λ s. (s.bytes.now, s.checked.checks) };

    fn sheet(&self) -> CheckedSheet<'_> {
        *self
    }

    fn has(self, at: usize, p: Packet) -> bool {
        is_inside(p, wire::box_at(self.bytes, at))
    }

    // A record begins with its box.
    fn gate(self) -> Run {
        Run {
            from: COUNT_BYTES,
            step: RECORD_BYTES,
            count: self.layout.order.gate,
        }
    }

    fn own(self) -> Run {
        Run {
            from: self.layout.order.middle + COUNT_BYTES,
            step: RECORD_BYTES,
            count: self.layout.order.own,
        }
    }

    // A group is found behind those of the deny rules before it.
    fn group(self, place: usize) -> Group {
        let from = self.layout.from;
        let earlier = sheet::count_denies(self.bytes, place);
        let front = kept::count_boxes(&self.bytes[from..], earlier);
        let start = from + COUNT_BYTES * earlier + BOX_BYTES * front;
        Group {
            front,
            run: Run {
                from: start + COUNT_BYTES,
                step: BOX_BYTES,
                count: wire::count_at(self.bytes, start),
            },
        }
    }
}

// What decides a packet: the rule of A that drops it, the number of the box inside that rule's group and the box's place in the cell
// list; or the rule of A that it passed, the rule of B that decides, that rule's place in the cell list and its action; or no rule. A
// variant has no ghost field, so the limits of its numbers are said by TraceSmall.
#[derive(Clone, Copy)]
pub enum Trace {
    Gate {
        rule: usize,
        number: usize,
        place: usize,
    },
    Own {
        passed: usize,
        rule: usize,
        place: usize,
        // The record's number, since the answer is computed with it.
        action: u32,
    },
    Nowhere,
}

// The number of the first box of a run that has the packet; where none has it, how many there are. So whoever knows that one has it
// takes the number as it is, and needs no case for none.
fn first_of<B: Boxes>(boxes: B, run: Run, p: Packet) -> usize
    requires { Holds B.size B.region_in (B.numbers boxes) run (run_boxes B.region_in (B.numbers boxes) run) }
    ensures { result ≡ box_number (packet_of p) (run_boxes B.region_in (B.numbers boxes) run) }
{
    let mut at = run.from;
    for number in 0..run.count {
        if boxes.has(at, p) {
            return number;
        }
        at += run.step;
    }
    run.count
}

// The packet that the deny rule at a place of A drops: a box of its group has it.
fn trace_gate<B: Boxes>(boxes: B, p: Packet, rule: usize) -> Trace
    requires { first (packet_of p) (B.pair boxes).order.gate ≡ found rule 0 }
    ensures traced { Traced (packet_of p) (B.pair boxes) result }
    ensures small { TraceSmall result }
{
    let group = boxes.group(rule);
    let number = first_of(boxes, group.run, p);
    let place = group.front + number;
    Trace::Gate {
        rule,
        number,
        place,
    }
}

// The packet that passed the rule at a place of A: it is inside the limits, so an own rule has it.
fn trace_own<B: Boxes>(boxes: B, p: Packet, passed: usize) -> Trace
    requires { first (packet_of p) (B.pair boxes).order.gate ≡ found passed 1 }
    ensures traced { Traced (packet_of p) (B.pair boxes) result }
    ensures small { TraceSmall result }
{
    let sheet = boxes.sheet();
    let rule = first_of(boxes, boxes.own(), p);
    let record = sheet.own_rule(rule);
    let place = sheet.layout.boxes + rule;
    Trace::Own {
        passed,
        rule,
        place,
        action: record.action,
    }
}

// One packet on a sheet that passes check. What no rule of A has is outside the limits, and then no rule of the cell list has it.
pub fn trace_packet<B: Boxes>(boxes: B, p: Packet) -> Trace
    ensures traced { Traced (packet_of p) (B.pair boxes) result }
    ensures small { TraceSmall result }
{
    let gate = boxes.gate();
    let rule = first_of(boxes, gate, p);
    if rule == gate.count {
        return Trace::Nowhere;
    }
    let record = boxes.sheet().gate_rule(rule);
    if record.is_allow() {
        return trace_own(boxes, p, rule);
    }
    trace_gate(boxes, p, rule)
}

// Which list it is, with 0 for A and 1 for B as C gets it, the rule's place in it and the box's number, at the front of what is lent.
fn put_origin(numbers: &mut [u32], which: u32, rule: usize, number: usize)
    requires { (origin_size ≤ length numbers.old) × (rule < limits.total) × (number < limits.total) }
    ensures { numbers.new ≡ sets numbers.old 0 (which ∷ rule ∷ number ∷ []) }
{
    numbers[..ORIGIN_NUMBERS].copy_from_slice(&[which, rule as u32, number as u32]);
}

// A trace told: the origin as numbers, and the answer of a lookup in the cell list. It is no From, since it asks for small numbers.
fn tell(t: Trace, numbers: &mut [u32]) -> Answer
    requires { (origin_size ≤ length numbers.old) × TraceSmall t }
    ensures { TraceTold t numbers.old result numbers.new }
{
    match t {
        Trace::Gate {
            rule,
            number,
            place,
        } => {
            put_origin(numbers, 0, rule, number);
            let value = 2 * place;
            Ok(value)
        }
        Trace::Own {
            passed: _,
            rule,
            place,
            action,
        } => {
            put_origin(numbers, 1, rule, 0);
            let value = 2 * place + action as usize;
            Ok(value)
        }
        Trace::Nowhere => Err(Refusal::NotComplete),
    }
}

// Origin: check, then the rule that decides the packet in the cell list, told by where it comes from.
pub fn origin(p: Packet, sheet: &[u8], numbers: &mut [u32], work: &mut [u8]) -> Answer
    ensures { Origins (packet_of p) sheet.now numbers.old work.old result numbers.new work.new }
{
    if numbers.len() < ORIGIN_NUMBERS || work.len() < WORK_BYTES {
        return Err(Refusal::BufferShort);
    }
    let checked = CheckedSheet::new(sheet, work)?;
    tell(trace_packet(checked, p), numbers)
}
