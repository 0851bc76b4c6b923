// Order sheets as the test programs write them, and lists that are edited record by record, with nothing of the library's edit.
// Memory is fixed: a sheet's bytes and a list's records are the first of an array.
ghost use Rattle.std.specs.Prelude.{◌≡◌, ◌≤◌, ◌<◌, ◌+◌, ◌-◌, ◌*◌, [], ◌∷◌, ◌++◌, length, take, IsErr, OnOk, OnErr};
ghost use Rattle.policy.specs.Fields.{count_size, record_size};
ghost use Rattle.policy.specs.Rules.{rule, full};
ghost use Rattle.policy.specs.Values.{rule_of};
ghost use Rattle.test_draws.specs.Steps.{Added, count_after, count_put, list_put, record_put};

use crate::Edit;
use policy::{ALLOW, COUNT_BYTES, DENY, FULL, OWN_MOST, RECORD_BYTES, Refusal, Rule};
use promises::Change;

// The longest list, and a rule more: an insert may make a list too long.
const LIST_RULES: usize = OWN_MOST + 1;

// The order sheet of two lists that long.
const LISTS_BYTES: usize = 2 * (COUNT_BYTES + RECORD_BYTES * LIST_RULES);

type Record = [u8; RECORD_BYTES];

#[derive(Clone, Copy)]
pub struct Sheet {
    bytes: [u8; LISTS_BYTES],
    used: usize,
    ghost within: { used ≤ length bytes },
}

#[derive(Clone, Copy)]
struct List {
    records: [Record; LIST_RULES],
    count: usize,
    ghost within: { count ≤ length records },
}

// A and B.
#[derive(Clone, Copy)]
pub struct Lists {
    gate: List,
    own: List,
}

// The rule for every packet. Its action is a number, as C lends it.
pub fn full(action: u32) -> Rule
    ensures { rule_of result ≡ rule full action }
{
    Rule {
        bounds: FULL,
        action,
    }
}

fn record_of(rule: Rule) -> Record
    ensures { result ≡ record_put (rule_of rule) }
{
    let mut record = [0; RECORD_BYTES];
    wire::put_rule(&mut record, 0, rule);
    record
}

impl Sheet {
    pub fn new() -> Sheet
        ensures { result.used ≡ 0 }
    {
        Sheet {
            bytes: [0; LISTS_BYTES],
            used: 0,
        }
    }

    pub fn bytes(&self) -> &[u8]
        ensures { result.now ≡ take self.now.used self.now.bytes }
    {
        &self.bytes[..self.used]
    }

    // What does not fit is left out.
    fn add(&mut self, new: &[u8])
        ensures { Added self.old.used self.old.bytes new.now self.new.used self.new.bytes }
    {
        if new.len() <= LISTS_BYTES - self.used {
            self.used = wire::put_bytes(&mut self.bytes, self.used, new);
        }
    }

    pub fn add_count(&mut self, count: usize)
        requires { count < 65536 }
        ensures { Added self.old.used self.old.bytes (count_put count) self.new.used self.new.bytes }
    {
        let mut bytes = [0; COUNT_BYTES];
        wire::put_count(&mut bytes, 0, count);
        self.add(&bytes);
    }

    pub fn add_rule(&mut self, rule: Rule)
        ensures { Added self.old.used self.old.bytes (record_put (rule_of rule)) self.new.used self.new.bytes }
    {
        self.add(&record_of(rule));
    }

    fn add_list(&mut self, list: &List)
        requires { self.old.used + (count_size + record_size * list.now.count) ≤ length self.old.bytes }
        ensures length { length self.new.bytes ≡ length self.old.bytes }
        ensures used { self.new.used ≡ self.old.used + (count_size + record_size * list.now.count) }
        ensures bytes { take self.new.used self.new.bytes ≡ take self.old.used self.old.bytes ++ list_put list.now.count list.now.records }
    {
        self.add_count(list.count);
        for record in list.records() {
            self.add(record);
        }
    }
}

impl List {
    fn of_one(rule: Rule) -> List
        ensures { take result.count result.records ≡ record_put (rule_of rule) ∷ [] }
    {
        List {
            records: [record_of(rule); LIST_RULES],
            count: 1,
        }
    }

    fn records(&self) -> &[Record]
        ensures { result.now ≡ take self.now.count self.now.records }
    {
        &self.records[..self.count]
    }

    fn insert(&mut self, place: usize, record: Record) -> Result<(), Refusal>
        requires { place ≤ self.old.count }
        ensures done { OnOk result (self.new.count ≡ self.old.count + 1) }
        ensures refused { OnErr result (self.new ≡ self.old) }
    {
        if LIST_RULES <= self.count {
            return Err(Refusal::CountOutside);
        }
        self.count += 1;
        self.records[place..self.count].rotate_right(1);
        self.records[place] = record;
        Ok(())
    }

    fn remove(&mut self, place: usize)
        requires { place < self.old.count }
        ensures { self.new.count ≡ self.old.count - 1 }
    {
        self.records[place..self.count].rotate_left(1);
        self.count -= 1;
    }

    #[tactic(auto, unfolding(crate::specs::Steps::count_after))]
    fn edit(&mut self, e: &Edit) -> Result<(), Refusal>
        ensures done { OnOk result (self.new.count ≡ count_after e.now.request.change self.old.count) }
        ensures refused { OnErr result (self.new ≡ self.old) }
    {
        let place = e.request.place;
        match e.request.change {
            Change::Insert if place <= self.count => self.insert(place, e.record()?)?,
            Change::Delete if place < self.count => self.remove(place),
            Change::Replace if place < self.count => self.records[place] = e.record()?,
            _ => return Err(Refusal::NoPlace),
        }
        Ok(())
    }
}

impl Lists {
    // The lists that a run begins with: the gate denies everything, the cell allows everything.
    pub fn first() -> Lists
        ensures gate { take result.gate.count result.gate.records ≡ record_put (rule full 0) ∷ [] }
        ensures own { take result.own.count result.own.records ≡ record_put (rule full 1) ∷ [] }
    {
        Lists {
            gate: List::of_one(full(DENY)),
            own: List::of_one(full(ALLOW)),
        }
    }

    // How many rules the list has: A, or B where the number is not A's. It is a number as in a request.
    pub(crate) fn count(&self, which: u32) -> usize
        ensures { result < 65536 }
    {
        match which {
            0 => self.gate.count,
            _ => self.own.count,
        }
    }

    // An edit done, or the refusal for which there are no edited lists.
    pub fn edit(&mut self, e: &Edit) -> Result<(), Refusal>
        ensures gate { e.now.request.which ≡ 0 → OnOk result ((self.new.gate.count ≡ count_after e.now.request.change self.old.gate.count) × (self.new.own ≡ self.old.own)) }
        ensures own { e.now.request.which ≡ 1 → OnOk result ((self.new.own.count ≡ count_after e.now.request.change self.old.own.count) × (self.new.gate ≡ self.old.gate)) }
        ensures neither { 1 < e.now.request.which → IsErr result }
        ensures refused { OnErr result (self.new ≡ self.old) }
    {
        match e.request.which {
            0 => self.gate.edit(e),
            1 => self.own.edit(e),
            _ => Err(Refusal::NoPlace),
        }
    }

    pub fn sheet(&self) -> Sheet
        ensures { take result.used result.bytes ≡ list_put self.now.gate.count self.now.gate.records ++ list_put self.now.own.count self.now.own.records }
    {
        let mut sheet = Sheet::new();
        sheet.add_list(&self.gate);
        sheet.add_list(&self.own);
        sheet
    }
}
