// Numbers, boxes and records in bytes, and the zeroing, filling and copying of lent bytes.
#![tactic(auto, unfolding(crate::specs::Steps::is_width))]

ghost use Rattle.std.specs.Prelude.{◌≡◌, true, ◌+◌, ◌≤◌, ◌<◌, length, take, drop};
ghost use Rattle.std.proofs.lemmas.List.Edits.{sets};
ghost use Rattle.policy.specs.Fields.{widths, box_size, record_size, count_size};
ghost use Rattle.policy.specs.Values.{region_of, rule_of};
ghost use Rattle.wire.specs.Numbers.{number_bytes, number_in};
ghost use Rattle.wire.specs.Steps.{is_width, copied_down, copied_up};
ghost use Rattle.wire.specs.Records.{ranges_bytes, box_bytes, box_in, record_bytes, rule_in};
ghost use Rattle.wire.specs.Buffers.{zeroed, filled};

use policy::{BOX_BYTES, Box, COUNT_BYTES, FIELDS, RECORD_BYTES, Range, Rule, WIDTH};

// The bytes of an action.
const ACTION_BYTES: usize = RECORD_BYTES - BOX_BYTES;

// The number of w bytes that begin at `at`: they are the last of four, with zero before them. Where w is known, the compiler makes one
// load of it. The width is a number, as the fields' table has it.
pub fn number_at(s: &[u8], at: usize, w: usize) -> u32
    requires { (at + w ≤ length s.now) × (is_width w ≡ true) }
    ensures { result ≡ number_in (take w (drop at s.now)) }
{
    let mut bytes = [0u8; 4];
    bytes[4 - w..].copy_from_slice(&s[at..at + w]);
    u32::from_be_bytes(bytes)
}

pub fn four_at(s: &[u8], at: usize) -> u32
    requires { at + 4 ≤ length s.now }
    ensures { result ≡ number_in (take 4 (drop at s.now)) }
{
    number_at(s, at, 4)
}

// The last w bytes of x. Where w is known, the compiler makes one store of it.
fn put_number(out: &mut [u8], at: usize, w: usize, x: u32)
    requires { (at + w ≤ length out.old) × (is_width w ≡ true) }
    ensures { out.new ≡ sets out.old at (number_bytes w x) }
{
    let bytes = x.to_be_bytes();
    put_bytes(out, at, &bytes[4 - w..]);
}

// The range whose two numbers of w bytes begin at `at`, which may be empty. Those of a port are read as one number of four, in one load.
// Of an address the high is read first, and so the compiler also compares it first: one compare less for a piece that lies below an
// allow, one more for a piece above it.
fn range_at(s: &[u8], at: usize, w: usize) -> Range
    requires { (at + w + w ≤ length s.now) × (is_width w ≡ true) }
    ensures { (result.low ≡ number_in (take w (drop at s.now))) × (result.high ≡ number_in (take w (drop (at + w) s.now))) }
{
    if w == 2 {
        let both = four_at(s, at);
        return Range {
            low: both / 65536,
            high: both % 65536,
        };
    }
    let high = number_at(s, at + w, w);
    Range {
        low: number_at(s, at, w),
        high,
    }
}

// The count that stands at `at`.
pub fn count_at(s: &[u8], at: usize) -> usize
    requires { at + count_size ≤ length s.now }
    ensures { (result ≡ number_in (take count_size (drop at s.now))) × (result < 65536) }
{
    number_at(s, at, COUNT_BYTES) as usize
}

// A count is a usize, as are the lengths that are made of it.
pub fn put_count(out: &mut [u8], at: usize, n: usize)
    requires { (at + count_size ≤ length out.old) × (n < 65536) }
    ensures { out.new ≡ sets out.old at (number_bytes count_size n) }
{
    put_number(out, at, COUNT_BYTES, n as u32);
}

// The box whose bytes begin at `at`. The fields differ in width, so the walk counts where it is.
pub fn box_at(s: &[u8], at: usize) -> Box
    requires { at + box_size ≤ length s.now }
    ensures { region_of result ≡ box_in (drop at s.now) }
{
    let mut low = [0u32; FIELDS];
    let mut high = [0u32; FIELDS];
    let mut p = at;
    for k in 0..FIELDS {
        let w = WIDTH[k];
        let r = range_at(s, p, w);
        low[k] = r.low;
        high[k] = r.high;
        p += w + w;
    }
    Box { low, high }
}

// The bytes of the first n fields of a box, from `at` on. The walk goes through all fields, so that the compiler makes straight
// code of it wherever it knows n.
pub fn put_fields(out: &mut [u8], at: usize, n: usize, b: Box)
    requires { at + box_size ≤ length out.old }
    ensures { out.new ≡ sets out.old at (ranges_bytes (take n widths) (region_of b)) }
{
    let low = b.low;
    let high = b.high;
    let mut p = at;
    for k in 0..FIELDS {
        let w = WIDTH[k];
        if k < n {
            put_number(out, p, w, low[k]);
            put_number(out, p + w, w, high[k]);
        }
        p += w + w;
    }
}

// The bytes of a box, from `at` on.
pub fn put_box(out: &mut [u8], at: usize, b: Box)
    requires { at + box_size ≤ length out.old }
    ensures { out.new ≡ sets out.old at (box_bytes (region_of b)) }
{
    put_fields(out, at, FIELDS, b);
}

// The rule whose record begins at `at`.
pub fn rule_at(s: &[u8], at: usize) -> Rule
    requires { at + record_size ≤ length s.now }
    ensures { rule_of result ≡ rule_in (drop at s.now) }
{
    let bounds = box_at(s, at);
    Rule {
        bounds,
        action: number_at(s, at + BOX_BYTES, ACTION_BYTES),
    }
}

// The record of a rule, from `at` on.
pub fn put_rule(out: &mut [u8], at: usize, r: Rule)
    requires { at + record_size ≤ length out.old }
    ensures { out.new ≡ sets out.old at (record_bytes (rule_of r)) }
{
    let bounds = r.bounds;
    put_box(out, at, bounds);
    put_number(out, at + BOX_BYTES, ACTION_BYTES, r.action);
}

// Zero from one byte up to another.
pub fn zero(out: &mut [u8], from: usize, to: usize)
    requires { (from ≤ to) × (to ≤ length out.old) }
    ensures { out.new ≡ zeroed from to out.old }
{
    out[from..to].fill(0);
}

// The content at the front, zero behind it up to an end.
pub fn fill(out: &mut [u8], end: usize, content: &[u8])
    requires { (length content.now ≤ end) × (end ≤ length out.old) }
    ensures { out.new ≡ filled end out.old content.now }
{
    let n = put_bytes(out, 0, content);
    zero(out, n, end);
}

// The content from `at` on, and where it ends.
pub fn put_bytes(out: &mut [u8], at: usize, content: &[u8]) -> usize
    requires { at + length content.now ≤ length out.old }
    ensures { (result ≡ at + length content.now) × (out.new ≡ sets out.old at content.now) }
{
    let end = at + content.len();
    out[at..end].copy_from_slice(content);
    end
}

// The bytes from `from` up to `to`, each taken from so many bytes further up.
pub fn copy_down(out: &mut [u8], by: usize, from: usize, to: usize)
    requires { (from ≤ to) × (by + to ≤ length out.old) }
    ensures { out.new ≡ copied_down by from to out.old }
{
    out.copy_within(by + from..by + to, from);
}

// The first n bytes, each put so many bytes further up.
pub fn copy_up(out: &mut [u8], by: usize, n: usize)
    requires { by + n ≤ length out.old }
    ensures { out.new ≡ copied_up by n out.old }
{
    out.copy_within(..n, by);
}
