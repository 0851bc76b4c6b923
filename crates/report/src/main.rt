// Prints the load report of four files: a pair sheet, packets, and earlier and later readings of the cell filter's counters. The packets
// are read a block at a time, so that memory does not grow with them, and nothing is printed before the last one is counted.
#![tactic(auto)]

ghost use Rattle.std.specs.Prelude.{◌≤◌, length, IfOk};

use groups::WORK_BYTES;
use load::{Load, PACKET_BYTES, PACKETS_MOST};
use origins::CheckedSheet;
use policy::Refusal;
use printing::print_refusal;
use reading::read_full;
use reporting::{HITS_NUMBERS, READING_BYTES, Readings};
use rows::{TABLE_NUMBERS, TabledSheet};
use sheet::PAIR_BYTES;
use std::env::FillError;
use std::io::Read;
use std::rt::Env;
use std::{fs, io};

// The arguments' places.
const SHEET: usize = 1;

const PACKETS: usize = 2;

const EARLIER: usize = 3;

const LATER: usize = 4;

// The bytes of the longest path, and one more.
const NAME_BYTES: usize = 4096;

// A block fills the work buffer, and is of whole packets. So many blocks have more packets than a report may.
const BLOCKS_MOST: usize = PACKETS_MOST * PACKET_BYTES / WORK_BYTES + 1;

// The bytes of a file of readings for the longest list.
const READINGS_BYTES: usize = READING_BYTES * HITS_NUMBERS;

#[derive(Drop)]
struct Files<F> {
    sheet: F,
    packets: F,
    earlier: F,
    later: F,
}

// Why there is no report: a refusal, an argument whose file cannot be opened or read, or an output that cannot be written.
#[derive(Drop)]
enum Stop {
    Refused(Refusal),
    Unread(usize),
    Unprinted(io::Error),
}

impl From<Refusal> for Stop {
    fn from(f: Refusal) -> Stop {
        Stop::Refused(f)
    }
}

impl From<io::Error> for Stop {
    fn from(e: io::Error) -> Stop {
        Stop::Unprinted(e)
    }
}

// A file that cannot be opened or read, by the name that it was given. Of a name longer than any path the front is printed.
fn print_unread(rt: &(impl Env + Print), argument: usize) -> io::Result<()> {
    let mut name = [0u8; NAME_BYTES];
    print!(rt; "cannot read ")?;
    match rt.arg(argument, &mut name) {
        // A name need not be text.
        Ok(n) => rt.write_all(&name[..n])?,
        Err(FillError::TooLong) => rt.write_all(&name)?,
        Err(FillError::NotPresent) => {}
    }
    println!(rt; "")
}

// The file that an argument names. A path is text, so a name that is none names no file.
fn open_named<R: Env + fs::Files>(rt: &R, argument: usize) -> Option<R::File> {
    let mut name = [0u8; NAME_BYTES];
    let n = rt.arg(argument, &mut name).ok()?;
    let path = str::from_utf8(&name[..n]).ok()?;
    fs::open(rt, path).ok()
}

fn open_argument<R: Env + fs::Files>(rt: &R, argument: usize) -> Result<R::File, Stop> {
    open_named(rt, argument).ok_or(Stop::Unread(argument))
}

// Fills the buffer from an argument's file, as far as the file goes; how many bytes are at the buffer's front.
fn read_argument(file: &mut impl Read, argument: usize, buffer: &mut [u8]) -> Result<usize, Stop>
    ensures { IfOk result (λ n. n ≤ length buffer.new) }
{
    match read_full(file, buffer) {
        Ok(n) => Ok(n),
        Err(_e) => Err(Stop::Unread(argument)),
    }
}

// All blocks added, or as many of them as have more packets than a report may. A block that does not fill the buffer is the last one.
fn add_all(
    packets: &mut impl Read,
    sheet: TabledSheet<'_>,
    block: &mut [u8],
) -> Result<Load, Stop> {
    let mut sum = Load::none();
    for _ in 0..BLOCKS_MOST {
        let n = read_argument(packets, PACKETS, block)?;
        sum = load::add_block(sum, &block[..n], sheet)?;
        if n < block.len() {
            return Ok(sum);
        }
    }
    Err(Stop::Refused(Refusal::CountOutside))
}

fn print_total(rt: &impl Print, name: &str, n: u64) -> io::Result<()> {
    println!(rt; "{name} {n}")
}

fn print_gain(rt: &impl Print, t: Load) -> io::Result<()> {
    if t.packets == 0 {
        return println!(rt; "gain none");
    }
    let gain = t.gain();
    let numerator = gain.numerator;
    let denominator = gain.denominator;
    println!(rt; "gain {numerator}/{denominator}")
}

fn print_load(rt: &impl Print, t: Load) -> io::Result<()> {
    print_total(rt, "packets", t.packets)?;
    print_total(rt, "before", t.before)?;
    print_total(rt, "after", t.after)?;
    print_total(rt, "forwarded", t.forwarded)?;
    print_gain(rt, t)
}

// A line for each place of the cell list.
fn print_hits(rt: &impl Print, readings: Readings<'_>) -> io::Result<()> {
    for place in 0..readings.places {
        println!(rt; "{place} {}", readings.hits_at(place))?;
    }
    Ok(())
}

// The lengths of both files of readings, then the packets. One byte more than the readings of the longest list tells that a file is too
// long.
fn print_checked<F: Read + Drop>(
    rt: &impl Print,
    mut files: Files<F>,
    sheet: CheckedSheet<'_>,
    block: &mut [u8],
) -> Result<(), Stop> {
    let mut earlier = [0u8; READINGS_BYTES + 1];
    let mut later = [0u8; READINGS_BYTES + 1];
    let e = read_argument(&mut files.earlier, EARLIER, &mut earlier)?;
    let l = read_argument(&mut files.later, LATER, &mut later)?;
    let readings = Readings::new(&earlier[..e], &later[..l], sheet.places())?;
    let mut table = [0u32; TABLE_NUMBERS];
    let tabled = TabledSheet::new(sheet, &mut table);
    let load = add_all(&mut files.packets, tabled, block)?;
    print_load(rt, load)?;
    print_hits(rt, readings)?;
    Ok(())
}

// The sheet is checked before anything else is read, and the work buffer then holds the blocks. Memory is fixed: what a file gives is the
// front of an array.
fn print_report<F: Read + Drop>(rt: &impl Print, mut files: Files<F>) -> Result<(), Stop> {
    let mut sheet = [0u8; PAIR_BYTES + 1];
    let mut work = [0u8; WORK_BYTES];
    let n = read_argument(&mut files.sheet, SHEET, &mut sheet)?;
    let checked = CheckedSheet::new(&sheet[..n], &mut work)?;
    print_checked(rt, files, checked, &mut work)
}

// All four files are opened first.
fn run(rt: &(impl Env + fs::Files + Print)) -> Result<(), Stop> {
    let files = Files {
        sheet: open_argument(rt, SHEET)?,
        packets: open_argument(rt, PACKETS)?,
        earlier: open_argument(rt, EARLIER)?,
        later: open_argument(rt, LATER)?,
    };
    print_report(rt, files)
}

// Whether the program was given this argument.
fn is_given(rt: &impl Env, argument: usize) -> bool {
    let mut start = [0u8; 1];
    !matches!(rt.arg(argument, &mut start), Err(FillError::NotPresent))
}

fn main(rt: HostRuntime) -> io::Result<()> {
    if !is_given(&rt, LATER) || is_given(&rt, LATER + 1) {
        return println!(rt; "usage: report SHEET PACKETS EARLIER LATER");
    }
    match run(&rt) {
        Ok(()) => Ok(()),
        Err(Stop::Refused(f)) => print_refusal(&rt, f),
        Err(Stop::Unread(argument)) => print_unread(&rt, argument),
        Err(Stop::Unprinted(e)) => Err(e),
    }
}
