// Boxes, rules and packets by value, the refusals, and the answers of the calls. The number of fields, their highest values and
// their widths stand in the fields' table below; only the calls for C name the fields one by one.
#![tactic(auto)]

ghost use Rattle.std.specs.Prelude.{◌≡◌, true, false, ◌+◌, ◌-◌, ◌≤◌, ◌<◌, get_or, set};
ghost use Rattle.policy.specs.Fields.{fields, highest, limits};
ghost use Rattle.policy.specs.Ranges.{range, proper_range, proper, full_range, is_full};
ghost use Rattle.policy.specs.Rules.{sound, is_allow};
ghost use Rattle.policy.specs.Cut.{meets, share};
ghost use Rattle.policy.specs.Refusals.{number_of, refusal_base};
ghost use Rattle.policy.specs.Values.{range_of, region_of, rule_of};
ghost use Rattle.policy.specs.Steps.{range_at};

// The fields' table: source address, destination address, source port, destination port, protocol.
pub const FIELDS: usize = 5;

pub const HIGHEST: [u32; FIELDS] = [4294967295, 4294967295, 65535, 65535, 255];

pub const WIDTH: [usize; FIELDS] = [4, 4, 2, 2, 1];

pub const BOX_BYTES: usize = 2 * (WIDTH[0] + WIDTH[1] + WIDTH[2] + WIDTH[3] + WIDTH[4]);

pub const RECORD_BYTES: usize = BOX_BYTES + 1;

// The bytes of a count.
pub const COUNT_BYTES: usize = 2;

// The limits: rules of A, own rules, pieces of one deny rule on the way, boxes plus own rules.
pub const GATE_MOST: usize = 64;

pub const OWN_MOST: usize = 256;

pub const PIECES_MOST: usize = 1024;

pub const TOTAL_MOST: usize = 1024;

// The two actions of a rule.
pub const DENY: u32 = 0;

pub const ALLOW: u32 = 1;

// For C a refusal is this and its number.
pub const REFUSAL_BASE: u32 = 65536;

// Both ends belong to a range.
#[derive(Clone, Copy)]
pub struct Range {
    pub low: u32,
    pub high: u32,
}

// A range for each field. Boxes and rules lie in memory as C lays them out, so that C can lend a table of them.
#[repr(C)]
#[derive(Clone, Copy)]
pub struct Box {
    pub low: [u32; FIELDS],
    pub high: [u32; FIELDS],
}

// The box that has every packet.
pub const FULL: Box = Box {
    low: [0; FIELDS],
    high: HIGHEST,
};

#[repr(C)]
#[derive(Clone, Copy)]
pub struct Rule {
    pub bounds: Box,
    // A number, since C lends any; number 4 refuses one above 1.
    pub action: u32,
}

#[derive(Clone, Copy)]
pub struct Packet {
    pub values: [u32; FIELDS],
}

// Why a call is refused, each with its number.
#[derive(Clone, Copy)]
pub enum Refusal {
    BufferShort = 1,
    CountOutside,
    LengthWrong,
    RuleBad,
    NotComplete,
    TooManyPieces,
    TooManyBoxes,
    GroupsDiffer,
    NoPlace,
}

// The value that a call answers, mostly a length, or the refusal.
pub type Answer = Result<usize, Refusal>;

pub fn number_of(f: Refusal) -> u32
    ensures { (result ≡ number_of f) × (result ≤ 9) }
{
    f as u32
}

// The one number that C gets for a refusal.
pub fn refused_number(f: Refusal) -> u32
    ensures { result ≡ refusal_base + number_of f }
{
    REFUSAL_BASE + number_of(f)
}

impl Range {
    fn is_proper(self, most: u32) -> bool
        ensures { result ≡ proper_range most (range_of self) }
    {
        self.low <= self.high && self.high <= most
    }

    fn is_full(self, most: u32) -> bool
        ensures { result ≡ full_range most (range_of self) }
    {
        self.low == 0 && self.high == most
    }

    // Whether the ranges, neither of them empty, have a value in common.
    fn meets(self, r: Range) -> bool
        ensures { result ≡ meets (range_of self) (range_of r) }
    {
        self.low <= r.high && r.low <= self.high
    }
}

fn value_at(values: [u32; FIELDS], k: usize) -> u32
    requires { k < fields }
    ensures { result ≡ get_or values k 0 }
{
    let mut x: u32 = 0;
    for j in 0..FIELDS {
        if j == k {
            x = values[j];
        }
    }
    x
}

// A field is its number below FIELDS, which every loop over the fields gives; a type of its own would be opened at each array.
impl Box {
    pub fn range(self, k: usize) -> Range
        requires { k < fields }
        ensures { range_of result ≡ range_at (region_of self) k }
    {
        Range {
            low: self.low[k],
            high: self.high[k],
        }
    }

    // Field k narrowed to a range. The fields are walked and not indexed, here and in `value_at`: so a box that is cut stays in
    // registers.
    pub fn narrow(self, k: usize, r: Range) -> Box
        requires { k < fields }
        ensures { region_of result ≡ set (region_of self) k (range_of r) }
    {
        let mut b = self;
        for j in 0..FIELDS {
            if j == k {
                b.low[j] = r.low;
                b.high[j] = r.high;
            }
        }
        b
    }

    // The part whose field k is below x.
    pub fn low_part(self, k: usize, x: u32) -> Box
        requires { (k < fields) × (0 < x) }
        ensures { region_of result ≡ set (region_of self) k (range (range_at (region_of self) k).low (x - 1)) }
    {
        let low = value_at(self.low, k);
        self.narrow(k, Range { low, high: x - 1 })
    }

    // The part whose field k is above x.
    pub fn high_part(self, k: usize, x: u32) -> Box
        requires { (k < fields) × (x < 4294967295) }
        ensures { region_of result ≡ set (region_of self) k (range (x + 1) (range_at (region_of self) k).high) }
    {
        let high = value_at(self.high, k);
        self.narrow(k, Range { low: x + 1, high })
    }

    // Whether the boxes, neither of them empty, have a packet in common.
    pub fn shares(self, a: Box) -> bool
        ensures { result ≡ share (region_of self) (region_of a) }
    {
        (0..FIELDS).all(|k| self.range(k).meets(a.range(k)))
    }

    // No low above its high, no value above its field's highest. From the last field to the first, as a lookup tries them afterwards:
    // the other way round a rule that misses in the protocol takes one instruction more.
    pub fn is_proper(self) -> bool
        ensures { result ≡ proper highest (region_of self) }
    {
        for k in (0..FIELDS).rev() {
            if !self.range(k).is_proper(HIGHEST[k]) {
                return false;
            }
        }
        true
    }

    pub fn is_full(self) -> bool
        ensures { result ≡ is_full highest (region_of self) }
    {
        (0..FIELDS).all(|k| self.range(k).is_full(HIGHEST[k]))
    }
}

impl Rule {
    // A rule that number 4 lets pass.
    #[tactic(auto, unfolding(crate::specs::Rules::sound))]
    pub fn is_sound(self) -> bool
        ensures { result ≡ sound (rule_of self) }
    {
        self.bounds.is_proper() && self.action <= ALLOW
    }

    pub fn is_allow(self) -> bool
        ensures { result ≡ is_allow (rule_of self) }
    {
        self.action == ALLOW
    }
}

// Whether boxes and own rules together are within the total; beyond it number 7 is given.
pub fn has_room(boxes: usize, own: usize) -> bool
    ensures { (result ≡ true → boxes + own ≤ limits.total) × (result ≡ false → limits.total < boxes + own) }
{
    own <= TOTAL_MOST && boxes <= TOTAL_MOST - own
}
