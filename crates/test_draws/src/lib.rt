// Edits drawn by a small generator of pseudo-random numbers, so that a seed gives the same run on every machine.
// An edit is done by one of the calls for C.
#![tactic(auto)]

pub mod order;

ghost use Rattle.std.specs.Prelude.{◌≡◌, ◌+◌, ◌<◌, ◌≤◌, length, take};
ghost use Rattle.policy.specs.Fields.{fields, record_size};
ghost use Rattle.promises.specs.Edits.{Edits, asked};
ghost use Rattle.foldplover.specs.Coded.{Coded};

use foldplover::{foldplover_delete, foldplover_insert, foldplover_replace};
use order::{Lists, full};
use policy::{ALLOW, Box, DENY, FIELDS, FULL, HIGHEST, RECORD_BYTES, Range, Refusal, Rule};
use promises::{Change, Request};

// A record and a byte more, which no edit takes.
const LONG_BYTES: usize = RECORD_BYTES + 1;

// An edit: what is asked for, and the bytes that are lent as the record.
#[derive(Clone, Copy)]
pub struct Edit {
    pub request: Request,
    bytes: [u8; LONG_BYTES],
    size: usize,
    ghost within: { size ≤ length bytes },
}

impl Edit {
    pub fn bytes(&self) -> &[u8]
        ensures { result.now ≡ take self.now.size self.now.bytes }
    {
        &self.bytes[..self.size]
    }

    // The record that they are, or its refusal.
    pub(crate) fn record(&self) -> Result<[u8; RECORD_BYTES], Refusal> {
        self.bytes().try_into().map_err(|_| Refusal::LengthWrong)
    }
}

// How the edits of a run are drawn. Of 16 edits so many insert, so many delete and so many are for B. Of 128 rules one allows
// and so many deny everything; of 16 others so many allow, and of 64 so many are bad. In these the first `fields` fields are
// narrowed, one of them always and each other in `narrow` of 8 draws, to a range that begins or ends below `span`; `ends` of 16
// such ranges reach up to the field's highest value, and as many of the others begin at 0.
#[derive(Clone, Copy)]
pub struct Shape {
    pub edits: u32,
    pub inserts: u32,
    pub deletes: u32,
    pub own: u32,
    pub allows: u32,
    pub bad: u32,
    pub full: u32,
    pub fields: u32,
    pub narrow: u32,
    pub span: u32,
    pub ends: u32,
}

// An edit of the pair sheet in its buffer, by the call that C has for it. A delete's call is lent no record.
pub fn edit_by_call(
    sheet: &mut [u8],
    used: usize,
    request: Request,
    bytes: &[u8],
    work: &mut [u8],
) -> u32
    ensures { Coded (λ q. Edits sheet.old used (asked request bytes.now) work.old q sheet.new work.new) result }
{
    let Request {
        which,
        place,
        change,
    } = request;
    match change {
        Change::Insert => foldplover_insert(sheet, used, which, place, bytes, work),
        Change::Delete => foldplover_delete(sheet, used, which, place, work),
        Change::Replace => foldplover_replace(sheet, used, which, place, bytes, work),
    }
}

// The last place that a list of so many rules has for an edit.
fn last_place(count: usize, change: Change) -> usize {
    match change {
        Change::Insert => count,
        Change::Delete | Change::Replace => count.saturating_sub(1),
    }
}

// The draws of a run: the state of the generator, and the shape.
#[derive(Clone, Copy)]
pub struct Draws {
    state: u32,
    shape: Shape,
}

impl Draws {
    pub fn new(seed: u32, shape: Shape) -> Draws
        ensures { (result.state ≡ seed) × (result.shape ≡ shape) }
    {
        Draws { state: seed, shape }
    }

    // A number below n, for n from 1 to 32,768: the upper bits of a linear congruence.
    fn below(&mut self, n: u32) -> u32
        ensures bits { result < 32768 }
        ensures below { 0 < n → result < n }
    {
        let state = (self.state as u64 * 1103515245 + 12345) % 2147483648;
        self.state = state as u32;
        let value = (state / 65536) as u32;
        if n == 0 {
            return 0;
        }
        value % n
    }

    fn change(&mut self) -> Change {
        let draw = self.below(16);
        if draw < self.shape.inserts {
            return Change::Insert;
        }
        if draw - self.shape.inserts < self.shape.deletes {
            return Change::Delete;
        }
        Change::Replace
    }

    // A or B, and now and then neither.
    fn which(&mut self) -> u32
        ensures { result < 5 }
    {
        if self.below(64) == 0 {
            return 2 + self.below(3);
        }
        if self.below(16) < self.shape.own {
            return 1;
        }
        0
    }

    // A place of a list of so many rules, the last more often than others, and now and then none.
    fn place(&mut self, count: usize, change: Change) -> usize
        requires { count < 65536 }
    {
        match self.below(32) {
            0 => count + 1 + self.below(4) as usize,
            1 => usize::MAX,
            2..=5 => last_place(count, change),
            _ => self.below(count as u32 + 1) as usize,
        }
    }

    // A record's length, and now and then another.
    fn size(&mut self) -> usize
        ensures { result ≤ record_size + 1 }
    {
        match self.below(96) {
            0 => 0,
            1 => RECORD_BYTES - 1,
            2 => LONG_BYTES,
            _ => RECORD_BYTES,
        }
    }

    // A range of field k, of one value or of some.
    fn range(&mut self, k: usize) -> Range
        requires { k < fields }
    {
        let value = self.below(self.shape.span);
        if self.below(16) < self.shape.ends {
            return Range {
                low: value,
                high: HIGHEST[k],
            };
        }
        if self.below(16) < self.shape.ends {
            return Range {
                low: 0,
                high: value,
            };
        }
        if self.below(2) == 0 {
            return Range {
                low: value,
                high: value,
            };
        }
        Range {
            low: value,
            high: value + self.below(8),
        }
    }

    // Whether field k is narrowed: the one that always is, and now and then another.
    fn narrows(&mut self, k: usize, always: usize) -> bool {
        k < self.shape.fields as usize && (k == always || self.below(8) < self.shape.narrow)
    }

    // A box that is narrowed in one field at least.
    fn bounds(&mut self) -> Box {
        let always = self.below(self.shape.fields) as usize;
        let mut bounds = FULL;
        for k in 0..FIELDS {
            if self.narrows(k, always) {
                bounds = bounds.narrow(k, self.range(k));
            }
        }
        bounds
    }

    // A rule that number 4 refuses: an action above 1, or a low above its high.
    fn bad(&mut self, bounds: Box) -> Rule {
        let k = self.below(8) as usize;
        let value = self.below(100);
        if k < FIELDS {
            let empty = Range {
                low: value + 1,
                high: value,
            };
            return Rule {
                bounds: bounds.narrow(k, empty),
                action: ALLOW,
            };
        }
        Rule {
            bounds,
            action: value + 2,
        }
    }

    fn rule(&mut self) -> Rule {
        let bounds = self.bounds();
        if self.below(64) < self.shape.bad {
            return self.bad(bounds);
        }
        if self.below(16) < self.shape.allows {
            return Rule {
                bounds,
                action: ALLOW,
            };
        }
        Rule {
            bounds,
            action: DENY,
        }
    }

    // A rule as the shape has it, and now and then a full one.
    fn any(&mut self) -> Rule {
        let draw = self.below(128);
        if draw == 0 {
            return full(ALLOW);
        }
        if draw <= self.shape.full {
            return full(DENY);
        }
        self.rule()
    }

    // An edit of these lists.
    pub fn edit(&mut self, lists: &Lists) -> Edit
        ensures { result.request.which < 5 }
    {
        let change = self.change();
        let which = self.which();
        let place = self.place(lists.count(which), change);
        let size = self.size();
        let mut bytes = [0; LONG_BYTES];
        wire::put_rule(&mut bytes, 0, self.any());
        let request = Request {
            which,
            place,
            change,
        };
        Edit {
            request,
            bytes,
            size,
        }
    }
}
