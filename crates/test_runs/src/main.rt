// Long runs of edits, each against a fresh move of the lists as the accepted edits left them. The edits are drawn from fixed
// seeds; after every edit, accepted or refused, the number and all bytes of the pair sheet are compared.
#![tactic(auto)]

use foldplover::foldplover_move;
use groups::WORK_BYTES;
use policy::{BOX_BYTES, REFUSAL_BASE, Refusal, number_of};
use promises::Change;
use sheet::PAIR_BYTES;
use std::{fmt, io};
use test_draws::order::Lists;
use test_draws::{Draws, Edit, Shape, edit_by_call};

// What lent buffers hold before a call that is to write over it. The sheet of the first move has other bytes than that of a
// fresh move, so that a byte which neither writes is seen.
const DIRT: u8 = 165;

const FIRST_DIRT: u8 = 90;

// Small ranges in one of two fields: many cuts.
const TWO_FIELDS: Shape = Shape {
    edits: 1500,
    inserts: 7,
    deletes: 4,
    own: 4,
    allows: 11,
    bad: 2,
    full: 12,
    fields: 2,
    narrow: 0,
    span: 400,
    ends: 0,
};

// Nearly only allows, and a deny of everything behind them: two fields are enough for too many pieces.
const STRIPS: Shape = Shape {
    edits: 3000,
    inserts: 8,
    deletes: 3,
    own: 4,
    allows: 16,
    bad: 1,
    full: 1,
    fields: 2,
    narrow: 1,
    span: 20000,
    ends: 0,
};

const FIVE_FIELDS: Shape = Shape {
    edits: 1500,
    inserts: 7,
    deletes: 4,
    own: 4,
    allows: 10,
    bad: 2,
    full: 8,
    fields: 5,
    narrow: 3,
    span: 200,
    ends: 1,
};

// Mostly inserts of rules that cut little, up to the limits of both lists.
const GROWTH: Shape = Shape {
    edits: 1500,
    inserts: 10,
    deletes: 2,
    own: 12,
    allows: 1,
    bad: 1,
    full: 4,
    fields: 2,
    narrow: 7,
    span: 5000,
    ends: 0,
};

// Short lists and many bad records; the last rule is often taken out, replaced or followed by another.
const SHORT_LISTS: Shape = Shape {
    edits: 1500,
    inserts: 5,
    deletes: 5,
    own: 8,
    allows: 8,
    bad: 16,
    full: 8,
    fields: 3,
    narrow: 3,
    span: 50,
    ends: 3,
};

// The runs, each of a seed and a shape.
const RUNS: [(u32, Shape); 10] = [
    (1, TWO_FIELDS),
    (2, TWO_FIELDS),
    (6, STRIPS),
    (8, STRIPS),
    (11, FIVE_FIELDS),
    (12, FIVE_FIELDS),
    (21, GROWTH),
    (22, GROWTH),
    (31, SHORT_LISTS),
    (32, SHORT_LISTS),
];

// Why a call gave no length.
#[derive(Clone, Copy, PartialEq, Eq)]
enum Fault {
    // By its number, as C gets it.
    Refused(u32),
    // The work buffer was not left zero.
    WorkLeftByEdit,
    WorkLeftByMove,
}

impl From<Refusal> for Fault {
    fn from(f: Refusal) -> Fault {
        Fault::Refused(number_of(f))
    }
}

// The pair sheet's length, or why there is none.
type Outcome = Result<usize, Fault>;

// The accepted edits of a list, and the denies and allows that they put in.
#[derive(Clone, Copy, Default)]
struct Counts {
    inserts: u32,
    deletes: u32,
    replaces: u32,
    denies: u32,
    allows: u32,
}

impl Counts {
    fn add(&mut self, e: &Edit) {
        match e.request.change {
            Change::Insert => count_up(&mut self.inserts),
            Change::Delete => return count_up(&mut self.deletes),
            Change::Replace => count_up(&mut self.replaces),
        }
        // An allow is 1 in a record, a deny 0.
        match e.bytes().get(BOX_BYTES) {
            Some(1) => count_up(&mut self.allows),
            _ => count_up(&mut self.denies),
        }
    }
}

impl fmt::Display for Counts {
    fn fmt<W: fmt::Write>(&self, f: &mut fmt::Formatter<W>) -> fmt::Result {
        write!(
            f,
            "{} {} {} {} {}",
            self.inserts, self.deletes, self.replaces, self.denies, self.allows
        )
    }
}

// The numbers that an edit can be answered with: 0 where it is accepted, and those of the refusals.
const ANSWERS: usize = 10;

// How many edits of a run were answered with each number, and the accepted ones of A and of B.
#[derive(Clone, Copy, Default)]
struct Tally {
    answers: [u32; ANSWERS],
    gate: Counts,
    own: Counts,
}

impl Tally {
    fn add_answer(&mut self, number: u32) {
        if let Some(n) = self.answers.get_mut(number as usize) {
            count_up(n);
        }
    }

    fn add_accepted(&mut self, e: &Edit) {
        self.add_answer(0);
        match e.request.which {
            0 => self.gate.add(e),
            _ => self.own.add(e),
        }
    }

    fn add(&mut self, e: &Edit, outcome: Outcome) {
        match outcome {
            Ok(_) => self.add_accepted(e),
            Err(Fault::Refused(number)) => self.add_answer(number),
            Err(Fault::WorkLeftByEdit | Fault::WorkLeftByMove) => {}
        }
    }
}

impl fmt::Display for Tally {
    fn fmt<W: fmt::Write>(&self, f: &mut fmt::Formatter<W>) -> fmt::Result {
        write!(f, "accepted, refused with 1 to 9:")?;
        for n in &self.answers {
            write!(f, " {n}")?;
        }
        write!(
            f,
            "; inserts, deletes, replaces, denies and allows put in: A {}, B {}",
            self.gate, self.own
        )
    }
}

fn count_up(n: &mut u32) {
    *n = n.saturating_add(1);
}

// Compared as a whole: byte by byte this would be half of the program's time.
fn is_zero(work: &[u8]) -> bool {
    work == [0; WORK_BYTES].as_slice()
}

// What the number that C gets says.
fn outcome_of(answer: u32) -> Outcome {
    match answer.checked_sub(REFUSAL_BASE) {
        Some(number) => Err(Fault::Refused(number)),
        None => Ok(answer as usize),
    }
}

// A fresh move of the lists.
fn moved(lists: &Lists, sheet: &mut [u8]) -> Outcome {
    let mut work = [DIRT; WORK_BYTES];
    let answer = foldplover_move(lists.sheet().bytes(), sheet, &mut work);
    if !is_zero(&work) {
        return Err(Fault::WorkLeftByMove);
    }
    outcome_of(answer)
}

// What an edit of the lists is to come to: wherever there are edited lists, what a fresh move of them does.
fn wanted(lists: &mut Lists, e: &Edit, fresh: &mut [u8]) -> Outcome {
    lists.edit(e)?;
    moved(lists, fresh)
}

// The lists as the accepted edits left them, and their pair sheet in its buffer with its length, as the calls for C take them.
// `kept` is a copy of the last fresh move that was accepted, and is lent to no call.
#[derive(Clone, Copy)]
struct Run {
    lists: Lists,
    sheet: [u8; PAIR_BYTES],
    used: usize,
    kept: [u8; PAIR_BYTES],
}

impl Run {
    // The first lists moved.
    fn begin() -> Result<Run, Fault> {
        let lists = Lists::first();
        let mut sheet = [FIRST_DIRT; PAIR_BYTES];
        let used = moved(&lists, &mut sheet)?;
        Ok(Run {
            lists,
            sheet,
            used,
            kept: sheet,
        })
    }

    // An edit done on the pair sheet.
    fn edited(&mut self, e: &Edit) -> Outcome {
        let mut work = [DIRT; WORK_BYTES];
        let answer = edit_by_call(&mut self.sheet, self.used, e.request, e.bytes(), &mut work);
        if !is_zero(&work) {
            return Err(Fault::WorkLeftByEdit);
        }
        outcome_of(answer)
    }

    // One edit, and the fresh move beside it; what both came to, or none where something differs.
    fn play_edit(&mut self, e: &Edit) -> Option<Outcome> {
        let mut lists = self.lists;
        let mut fresh = [DIRT; PAIR_BYTES];
        let outcome = self.edited(e);
        let right = wanted(&mut lists, e, &mut fresh);
        if right.is_ok() {
            self.lists = lists;
            self.kept = fresh;
        }
        if outcome != right || self.sheet.as_slice() != self.kept.as_slice() {
            return None;
        }
        if let Ok(n) = outcome {
            self.used = n;
        }
        Some(outcome)
    }

    // The edits of a run, up to the first after which something differs; then how many there were before that one.
    fn play_edits(&mut self, seed: u32, shape: Shape, tally: &mut Tally) -> Result<(), u32> {
        let mut draws = Draws::new(seed, shape);
        for done in 0..shape.edits {
            let e = draws.edit(&self.lists);
            let outcome = self.play_edit(&e).ok_or(done)?;
            tally.add(&e, outcome);
        }
        Ok(())
    }
}

fn play(rt: &impl Print, seed: u32, shape: Shape) -> io::Result<()> {
    let mut tally = Tally::default();
    let played = match Run::begin() {
        Ok(mut run) => run.play_edits(seed, shape, &mut tally),
        Err(_) => Err(0),
    };
    match played {
        Ok(()) => println!(rt; "seed {seed}: {} edits, 0 differ; {tally}", shape.edits),
        Err(done) => println!(rt; "seed {seed}: {done} edits, then one that differs; {tally}"),
    }
}

fn main(rt: HostRuntime) -> io::Result<()> {
    for (seed, shape) in RUNS {
        play(&rt, seed, shape)?;
    }
    Ok(())
}
