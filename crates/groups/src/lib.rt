// The group of a deny rule. The first half of the work buffer holds the pieces; what an allow leaves of them is stored in the
// second half, and then copied back. How many pieces there are goes beside the half, since a call asks for no memory; and a type of
// both would tell what stands in the half by a ghost field beside a `&mut`, which the check does not take. A piece is a part of a half:
// an array of its bytes would be had by a conversion that may fail.
#![tactic(auto)]

ghost use Rattle.std.specs.Prelude.{◌≡◌, ◌∷◌, [], true, ◌+◌, ◌*◌, ◌≤◌, ◌<◌, length, take, drop};
ghost use Rattle.policy.specs.Fields.{fields, box_size};
ghost use Rattle.policy.specs.Rules.{Proper};
ghost use Rattle.policy.specs.Values.{region_of};
ghost use Rattle.policy.specs.Cut.{share, cut, cut_each};
ghost use Rattle.policy.specs.Move.{alone};
ghost use Rattle.wire.specs.Records.{box_bytes, box_in, boxes_in};
ghost use Rattle.groups.specs.Steps.{start_at, Workable, Fillable, AllTaken, WorkedOut, capacity, half_size, stored_most, Stored, LaterStand, CutAt, FieldCut, Stands, Started, Untouched, Taken};

use policy::{BOX_BYTES, Box, FIELDS, PIECES_MOST, RECORD_BYTES, Range, Refusal};

const HALF_BYTES: usize = PIECES_MOST * BOX_BYTES;

pub const WORK_BYTES: usize = 2 * HALF_BYTES;

// A cut under way: the box that goes on, and how many boxes are stored.
#[derive(Clone, Copy)]
struct Underway {
    rest: Box,
    stored: usize,
}

// A part of a piece, with the same fields from field k on: stored behind m others, as a copy of the piece with the fields before k put
// over it.
fn store_part(piece: &[u8], k: usize, part: Box, out: &mut [u8], m: usize) -> usize
    requires room { (half_size ≤ length out.old) × (m < stored_most) × (length piece.now ≡ box_size) × (k ≤ fields) }
    requires later { LaterStand k (region_of part) piece.now }
    ensures { Stored out.old m (region_of part ∷ []) out.new result }
{
    if m < PIECES_MOST {
        let to = BOX_BYTES * m;
        let end = to + BOX_BYTES;
        // By way of a buffer: the compiler does not know that a piece and the half that stores lie apart.
        let mut held = [0u8; BOX_BYTES];
        held.copy_from_slice(piece);
        out[to..end].copy_from_slice(&held);
        wire::put_fields(out, to, k, part);
    }
    m + 1
}

// Field k of the cut of a piece, whose range there is `range`: the part below the allow's range and the part above it stored, where there
// are such, and the rest narrowed to the shared range.
fn cut_field(
    piece: &[u8],
    k: usize,
    range: Range,
    allow: Range,
    done: Underway,
    out: &mut [u8],
) -> Underway
    requires { CutAt piece.now k range done out.old }
    ensures { FieldCut k allow done out.old out.new result }
{
    let rest = done.rest;
    let mut stored = done.stored;
    if range.low < allow.low {
        stored = store_part(piece, k + 1, rest.low_part(k, allow.low), out, stored);
    }
    if allow.high < range.high {
        stored = store_part(piece, k + 1, rest.high_part(k, allow.high), out, stored);
    }
    let low = range.low.max(allow.low);
    let high = range.high.min(allow.high);
    let rest = rest.narrow(k, Range { low, high });
    Underway { rest, stored }
}

// What a leaves of a piece, which is d, where they share a packet: stored behind n others; how many boxes are then there.
fn cut_box(piece: &[u8], d: Box, a: Box, out: &mut [u8], n: usize) -> usize
    requires room { (half_size ≤ length out.old) × (n + 2 * fields ≤ stored_most) × (share (region_of d) (region_of a) ≡ true) }
    requires written { (length piece.now ≡ box_size) × (piece.now ≡ box_bytes (region_of d)) }
    ensures { Stored out.old n (cut (region_of d) (region_of a)) out.new result }
{
    let mut done = Underway { rest: d, stored: n };
    for k in 0..FIELDS {
        let range = d.range(k);
        let allow = a.range(k);
        // A field that lies in the allow's gives no part. Two calls and not one, so that the compiler unrolls this loop before it puts
        // `cut_field` into it.
        if range.low < allow.low {
            done = cut_field(piece, k, range, allow, done, out);
        } else if allow.high < range.high {
            done = cut_field(piece, k, range, allow, done, out);
        }
    }
    done.stored
}

// What a leaves of a piece, stored behind m others.
fn cut_piece(piece: &[u8], a: Box, out: &mut [u8], m: usize) -> usize
    requires room { (half_size ≤ length out.old) × (m + 2 * fields ≤ stored_most) }
    requires written { (length piece.now ≡ box_size) × (piece.now ≡ box_bytes (box_in piece.now)) }
    ensures { Stored out.old m (cut (box_in piece.now) (region_of a)) out.new result }
{
    let d = wire::box_at(piece, 0);
    if d.shares(a) {
        return cut_box(piece, d, a, out, m);
    }
    store_part(piece, 0, d, out, m)
}

// How many pieces at the front a leaves as they are.
fn first_touched(pieces: &[u8], n: usize, a: Box) -> usize
    requires { box_size * n ≤ length pieces.now }
    ensures { Untouched n pieces.now (region_of a) result }
{
    (0..n)
        .find(|&i| wire::box_at(pieces, BOX_BYTES * i).shares(a))
        .unwrap_or(n)
}

// What a leaves of the pieces from the first one touched on, stored behind as many others as stand before it.
fn cut_pieces(pieces: &[u8], first: usize, n: usize, a: Box, out: &mut [u8]) -> usize
    requires room { (half_size ≤ length out.old) × (half_size ≤ length pieces.now) × (n ≤ capacity) × (first ≤ n) }
    requires standing { Stands n pieces.now }
    ensures { Stored out.old first (cut_each (drop first (boxes_in n pieces.now)) (region_of a)) out.new result }
{
    let mut m = first;
    for i in first..n {
        let at = BOX_BYTES * i;
        let end = at + BOX_BYTES;
        m = cut_piece(&pieces[at..end], a, out, m);
    }
    m
}

// An allow taken from each of n pieces: how many are then there; or number 6.
fn take_allow(pieces: &mut [u8], n: usize, a: Box, out: &mut [u8]) -> Result<usize, Refusal>
    requires room { (half_size ≤ length out.old) × (half_size ≤ length pieces.old) × (n ≤ capacity) }
    requires standing { Stands n pieces.old × Proper (region_of a) }
    ensures { Taken n (region_of a) pieces.old out.old pieces.new out.new result }
{
    let first = first_touched(pieces, n, a);
    let m = cut_pieces(pieces, first, n, a, out);
    if PIECES_MOST < m {
        return Err(Refusal::TooManyPieces);
    }
    // Mostly an allow touches no piece, and to copy nothing takes longer than this test.
    if first < m {
        let from = BOX_BYTES * first;
        let end = BOX_BYTES * m;
        pieces[from..end].copy_from_slice(&out[from..end]);
    }
    Ok(m)
}

// What the group of the deny rule at place i starts with, put at the front of the pieces; how many boxes that is.
fn put_start(rules: &[u8], i: usize, pieces: &mut [u8]) -> usize
    requires { Fillable rules.now i pieces.old }
    ensures { Started (start_at alone i rules.now) result pieces.new }
{
    let start = wire::box_at(rules, RECORD_BYTES * i);
    wire::put_box(pieces, 0, start);
    1
}

// Every allow before place i taken from n pieces: how many are then there; or number 6.
fn take_allows(
    rules: &[u8],
    i: usize,
    n: usize,
    pieces: &mut [u8],
    out: &mut [u8],
) -> Result<usize, Refusal>
    requires room { Fillable rules.now i pieces.old × (half_size ≤ length out.old) }
    requires standing { (n ≤ capacity) × Stands n pieces.old }
    ensures { AllTaken (boxes_in n pieces.old) rules.now i out.old pieces.new out.new result }
{
    let mut left = n;
    for j in 0..i {
        let rule = wire::rule_at(rules, RECORD_BYTES * j);
        if rule.is_allow() {
            left = take_allow(pieces, left, rule.bounds, out)?;
        }
    }
    Ok(left)
}

// The group of the deny rule at place i of the records: how many boxes it has, which then stand at the front of the work buffer; or
// number 6.
pub fn work_out(rules: &[u8], i: usize, work: &mut [u8]) -> Result<usize, Refusal>
    requires { Workable rules.now i work.old }
    ensures { WorkedOut alone rules.now i work.old result work.new }
{
    let (pieces, out) = work.split_at_mut(HALF_BYTES);
    let n = put_start(rules, i, pieces);
    take_allows(rules, i, n, pieces, out)
}
