// The record calls: a record's bytes to a rule given as numbers, and back.
#![tactic(auto)]

ghost use Rattle.std.specs.Prelude.{◌≡◌, ◌+◌, ◌≤◌, length, take, drop};
ghost use Rattle.std.proofs.lemmas.List.Edits.{sets};
ghost use Rattle.policy.specs.Fields.{fields};
ghost use Rattle.policy.specs.Values.{rule_of};
ghost use Rattle.records.specs.Calls.{numbers_size, rule_numbers, numbers_rule, RecordRead, RecordWritten};

use policy::{Answer, Box, FIELDS, RECORD_BYTES, Refusal, Rule};

// The numbers of a rule: a low and a high for each field, and the action.
pub const NUMBERS: usize = 2 * FIELDS + 1;

// One value for each field read, from `at` on.
fn values_at(numbers: &[u32], at: usize) -> [u32; FIELDS]
    requires { at + fields ≤ length numbers.now }
    ensures { result ≡ take fields (drop at numbers.now) }
{
    let mut values = [0u32; FIELDS];
    values.copy_from_slice(&numbers[at..at + FIELDS]);
    values
}

// One value for each field stored, from `at` on.
fn put_values(numbers: &mut [u32], at: usize, values: [u32; FIELDS])
    requires { at + fields ≤ length numbers.old }
    ensures { numbers.new ≡ sets numbers.old at values }
{
    numbers[at..at + FIELDS].copy_from_slice(&values);
}

// The rule that numbers give.
fn rule_of(numbers: &[u32]) -> Rule
    requires { numbers_size ≤ length numbers.now }
    ensures { rule_of result ≡ numbers_rule numbers.now }
{
    let low = values_at(numbers, 0);
    let high = values_at(numbers, FIELDS);
    let bounds = Box { low, high };
    Rule {
        bounds,
        action: numbers[2 * FIELDS],
    }
}

// The numbers of a rule, at the front of what is lent.
fn put_numbers(numbers: &mut [u32], r: Rule)
    requires { numbers_size ≤ length numbers.old }
    ensures { numbers.new ≡ sets numbers.old 0 (rule_numbers (rule_of r)) }
{
    let bounds = r.bounds;
    let low = bounds.low;
    let high = bounds.high;
    put_values(numbers, 0, low);
    put_values(numbers, FIELDS, high);
    numbers[2 * FIELDS] = r.action;
}

// A record's bytes to the numbers of its rule; the answer is 0, as C gets it.
pub fn rule(bytes: &[u8], numbers: &mut [u32]) -> Answer
    ensures { RecordRead bytes.now numbers.old result numbers.new }
{
    if numbers.len() < NUMBERS {
        return Err(Refusal::BufferShort);
    }
    if bytes.len() != RECORD_BYTES {
        return Err(Refusal::LengthWrong);
    }
    let r = wire::rule_at(bytes, 0);
    if !r.is_sound() {
        return Err(Refusal::RuleBad);
    }
    put_numbers(numbers, r);
    Ok(0)
}

// The numbers of a rule to its record's bytes.
pub fn record(numbers: &[u32], bytes: &mut [u8]) -> Answer
    ensures { RecordWritten numbers.now bytes.old result bytes.new }
{
    if numbers.len() < NUMBERS || bytes.len() < RECORD_BYTES {
        return Err(Refusal::BufferShort);
    }
    let r = rule_of(numbers);
    if !r.is_sound() {
        return Err(Refusal::RuleBad);
    }
    wire::put_rule(bytes, 0, r);
    Ok(RECORD_BYTES)
}
