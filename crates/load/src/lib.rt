// The load of packets on a pair sheet that passes check: one packet, a block of them, the gain; and the hits between two readings.
#![tactic(auto)]

ghost use Rattle.std.specs.Prelude.{◌≡◌, ◌+◌, ◌<◌, ◌≤◌, [], ◌∷◌, length, IfOk};
ghost use Rattle.policy.specs.Fields.{limits};
ghost use Rattle.policy.specs.Refusals.{heard};
ghost use Rattle.policy.specs.Values.{packet_of};
ghost use Rattle.sheet.specs.Steps.{pair_at};
ghost use Rattle.origins.specs.Steps.{TraceSmall};
ghost use Rattle.load.specs.Load.{load_of, no_load, plus, common, gain_of, hits_between};
ghost use Rattle.load.specs.Packets.{packet_size, packet_in, whole_packets, packets_in, packets_most, added_to};
ghost use Rattle.load.specs.Steps.{load_value, gain_value, trace_load, Bounded};

use origins::{Trace, trace_packet};
use policy::{BOX_BYTES, FIELDS, Packet, Refusal, WIDTH};
use rows::TabledSheet;
use std::ops::Add;

// A packet has half a box's bytes: one number for each field.
pub const PACKET_BYTES: usize = BOX_BYTES / 2;

// The most packets of one report.
pub const PACKETS_MOST: usize = 1000000;

// How often packets were counted and rules tried. A load may be of any numbers, since its gain is promised of all of them; what an
// addition needs is said by Bounded.
#[derive(Clone, Copy)]
pub struct Load {
    pub packets: u64,
    pub before: u64,
    pub after: u64,
    pub forwarded: u64,
}

#[derive(Clone, Copy)]
pub struct Gain {
    pub numerator: u64,
    pub denominator: u64,
}

impl Load {
    // The load of no packets.
    pub fn none() -> Load
        ensures { load_value result ≡ no_load }
    {
        Load {
            packets: 0,
            before: 0,
            after: 0,
            forwarded: 0,
        }
    }

    // Before over after in lowest terms; of no packets 0 over 0.
    pub fn gain(self) -> Gain
        ensures { gain_value result ≡ gain_of (load_value self) }
    {
        let before = self.before;
        let after = self.after;
        let divisor = common_divisor(before, after);
        if divisor == 0 {
            return Gain {
                numerator: 0,
                denominator: 0,
            };
        }
        Gain {
            numerator: before / divisor,
            denominator: after / divisor,
        }
    }
}

// Two loads together: neither is of more packets than a report has.
#[tactic(auto, unfolding(crate::specs::Load::plus))]
impl Add for Load {
    type Output = Load;

    ghost can_add = { λ t u. Bounded (load_value t) × Bounded (load_value u) };

    ghost add_gives = { λ t u r. load_value r ≡ plus (load_value t) (load_value u) };

    fn add(self, other: Load) -> Load {
        Load {
            packets: self.packets + other.packets,
            before: self.before + other.before,
            after: self.after + other.after,
            forwarded: self.forwarded + other.forwarded,
        }
    }
}

// Euclid's: it counts no turns, so no `for` fits.
fn common_divisor(a: u64, b: u64) -> u64
    ensures { result ≡ common a b }
{
    let mut x = a;
    let mut y = b;
    while 0 < y {
        let rest = x % y;
        x = y;
        y = rest;
    }
    x
}

// The packet that the bytes begin with. The fields differ in width, so the walk counts where each one begins.
fn packet_at(s: &[u8]) -> Packet
    requires { packet_size ≤ length s.now }
    ensures { packet_of result ≡ packet_in s.now }
{
    let mut values = [0u32; FIELDS];
    let mut at: usize = 0;
    for k in 0..FIELDS {
        let width = WIDTH[k];
        values[k] = wire::number_at(s, at, width);
        at += width;
    }
    Packet { values }
}

// The rules that the loaded lists try for a packet that the cell list decides there: the gate's one, and those up to the place.
fn tries_to(place: usize) -> u64
    requires { place < limits.total }
    ensures { result ≡ 1 + (place + 1) }
{
    (place + 2) as u64
}

// The load of a traced packet. Before the move the cell tries no rule for a packet that the gate drops. It is no From, since it asks for
// small numbers.
fn load_traced(t: Trace) -> Load
    requires { TraceSmall t }
    ensures { load_value result ≡ trace_load t }
{
    match t {
        Trace::Gate {
            rule,
            number: _,
            place,
        } => Load {
            packets: 1,
            before: (rule + 1) as u64,
            after: tries_to(place),
            forwarded: 0,
        },
        Trace::Own {
            passed,
            rule,
            place,
            action,
        } => Load {
            packets: 1,
            before: (passed + rule + 2) as u64,
            after: tries_to(place),
            forwarded: action as u64,
        },
        Trace::Nowhere => Load {
            packets: 1,
            before: 0,
            after: 0,
            forwarded: 0,
        },
    }
}

fn load_one(sheet: TabledSheet<'_>, p: Packet) -> Load
    ensures { (load_value result ≡ load_of (pair_at sheet.entry.sheet.layout sheet.entry.sheet.bytes.now) (packet_of p ∷ [])) × Bounded (load_value result) }
{
    load_traced(trace_packet(sheet, p))
}

// The load of a block of whole packets more.
fn add_packets(t: Load, block: &[u8], sheet: TabledSheet<'_>) -> Load
    requires { Bounded (load_value t) × (t.packets + whole_packets block.now ≤ packets_most) }
    ensures { (load_value result ≡ plus (load_value t) (load_of (pair_at sheet.entry.sheet.layout sheet.entry.sheet.bytes.now) (packets_in block.now))) × Bounded (load_value result) }
{
    let mut sum = t;
    for bytes in block.chunks_exact(PACKET_BYTES) {
        sum = sum + load_one(sheet, packet_at(bytes));
    }
    sum
}

// A block of packets added, each traced in the sheet's table: 2 where the whole ones are too many with those before, else 3 where the
// last one is broken.
pub fn add_block(t: Load, block: &[u8], sheet: TabledSheet<'_>) -> Result<Load, Refusal>
    requires { Bounded (load_value t) }
    ensures sum { heard load_value result ≡ added_to (pair_at sheet.entry.sheet.layout sheet.entry.sheet.bytes.now) (load_value t) block.now }
    ensures bounded { IfOk result (λ u. Bounded (load_value u)) }
{
    let whole = block.len() / PACKET_BYTES;
    if PACKETS_MOST as u64 - t.packets < whole as u64 {
        return Err(Refusal::CountOutside);
    }
    if block.len() % PACKET_BYTES != 0 {
        return Err(Refusal::LengthWrong);
    }
    Ok(add_packets(t, block, sheet))
}

// Counters roll over on purpose.
#[tactic(auto, unfolding(crate::specs::Load::hits_between))]
pub fn hits_between(earlier: u32, later: u32) -> u32
    ensures { result ≡ hits_between earlier later }
{
    later.wrapping_sub(earlier)
}
