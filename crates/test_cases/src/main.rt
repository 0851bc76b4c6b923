// Plays the stream of cases on standard input: each order sheet is moved and its edits are done one after another, and the
// number that each call answers is printed. The format stands in tests/second/README.md.
#![tactic(auto)]

ghost use Rattle.std.specs.Prelude.{◌<◌, IfOk};

use foldplover::foldplover_move;
use groups::WORK_BYTES;
use policy::{COUNT_BYTES, RECORD_BYTES, REFUSAL_BASE};
use promises::{Change, Request};
use sheet::PAIR_BYTES;
use std::io;
use std::io::Read;
use test_draws::edit_by_call;

// A stream is played up to so many cases.
const CASES_MOST: u64 = 1000000;

// The bytes of the longest order sheet that a stream can have: their number has two bytes.
const ORDER_MOST: usize = 65535;

// An edit as the stream has it. The record of a delete, which has none, is zeros.
#[derive(Clone, Copy)]
struct Edit {
    request: Request,
    record: [u8; RECORD_BYTES],
}

// A pair sheet in its buffer, and its length, as the calls for C take them.
#[derive(Clone, Copy)]
struct Pair {
    sheet: [u8; PAIR_BYTES],
    used: usize,
}

// So many bytes; zeros where the stream ends.
fn read_bytes<const N: usize>(input: &mut impl Read) -> io::Result<[u8; N]> {
    let mut bytes = [0; N];
    reading::read_full(input, &mut bytes)?;
    Ok(bytes)
}

// A number of two bytes; 0 where the stream ends.
fn read_number(input: &mut impl Read) -> io::Result<usize>
    ensures { IfOk result (λ n. n < 65536) }
{
    let bytes: [u8; COUNT_BYTES] = read_bytes(input)?;
    Ok(wire::count_at(&bytes, 0))
}

fn read_edit(input: &mut impl Read) -> io::Result<Edit> {
    let [kind, which]: [u8; 2] = read_bytes(input)?;
    let place = read_number(input)?;
    // Any kind above 1 is a replace.
    let (change, record) = match kind {
        0 => (Change::Insert, read_bytes(input)?),
        1 => (Change::Delete, [0; RECORD_BYTES]),
        _ => (Change::Replace, read_bytes(input)?),
    };
    let request = Request {
        which: which as u32,
        place,
        change,
    };
    Ok(Edit { request, record })
}

// The length that a call's number says; none where it is a refusal's.
fn length_of(answer: u32) -> Option<usize> {
    (answer < REFUSAL_BASE).then_some(answer as usize)
}

fn moved(order: &[u8], sheet: &mut [u8]) -> u32 {
    let mut work = [0; WORK_BYTES];
    foldplover_move(order, sheet, &mut work)
}

impl Pair {
    // An edit done; the number that it is answered with.
    fn edit(&mut self, e: Edit) -> u32 {
        let mut work = [0; WORK_BYTES];
        edit_by_call(&mut self.sheet, self.used, e.request, &e.record, &mut work)
    }

    // The sum of its bytes, each times its number, counted from 1, in 32 bits.
    fn sum(&self) -> u32 {
        let mut sum: u32 = 0;
        for (byte, number) in self.sheet.iter().take(self.used).zip(1u32..) {
            sum = sum.wrapping_add(number.wrapping_mul(*byte as u32));
        }
        sum
    }

    // One edit done and printed.
    fn play_edit(&mut self, rt: &impl Print, e: Edit) -> io::Result<()> {
        let answer = self.edit(e);
        self.used = length_of(answer).unwrap_or(self.used);
        println!(rt; "edit {answer} sum {}", self.sum())
    }
}

// The edits of one order sheet; they are passed over where its move was refused.
fn play_edits(rt: &impl Print, input: &mut impl Read, mut pair: Option<Pair>) -> io::Result<()> {
    for _ in 0..read_number(input)? {
        let e = read_edit(input)?;
        if let Some(pair) = &mut pair {
            pair.play_edit(rt, e)?;
        }
    }
    Ok(())
}

// One order sheet and its edits; whether there was one.
fn play_case(rt: &impl Print, input: &mut impl Read) -> io::Result<bool> {
    let n = read_number(input)?;
    if n == 0 {
        return Ok(false);
    }
    let mut order = [0; ORDER_MOST];
    let mut sheet = [0; PAIR_BYTES];
    reading::read_full(input, &mut order[..n])?;
    let answer = moved(&order[..n], &mut sheet);
    println!(rt; "move {answer}")?;
    play_edits(
        rt,
        input,
        length_of(answer).map(|used| Pair { sheet, used }),
    )?;
    Ok(true)
}

fn main(rt: HostRuntime) -> io::Result<()> {
    let mut input = rt.stdin();
    for _ in 0..CASES_MOST {
        if !play_case(&rt, &mut input)? {
            break;
        }
    }
    Ok(())
}
