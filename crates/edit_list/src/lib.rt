// The list that an edit changes, in bytes: records put in and taken out at its place, if there is such a place (9) and the record is
// whole (3).
#![tactic(auto)]

ghost use Rattle.std.specs.Prelude.{◌≡◌, ◌||◌, eqb, ◌+◌, ◌*◌, ◌≤◌, ◌<◌, length};
ghost use Rattle.std.proofs.lemmas.List.Edits.{sets};
ghost use Rattle.policy.specs.Fields.{count_size, record_size};
ghost use Rattle.wire.specs.Lists.{list_size};
ghost use Rattle.edit_list.specs.Steps.{taken_by, put_by, most_in, spliced, changed_bytes, ListChanged};

use policy::{Answer, COUNT_BYTES, RECORD_BYTES, Refusal};
use promises::{Change, Request};

// How many rules a change takes out at its place, and how many it puts in.
pub fn taken_and_put(change: Change) -> (usize, usize)
    ensures { (result.0 ≡ taken_by change) × (result.1 ≡ put_by change) × (result.0 ≤ 1) × (result.1 ≤ 1) }
{
    match change {
        Change::Insert => (0, 1),
        Change::Delete => (1, 0),
        Change::Replace => (1, 1),
    }
}

// The record, where one is put in, has a record's length.
fn is_whole(put: usize, new: &[u8]) -> bool
    ensures { result ≡ (eqb put 0 || eqb (length new.now) record_size) }
{
    put == 0 || new.len() == RECORD_BYTES
}

// The bytes of a list with so many records taken out at a place, and others put in there, at the front of the buffer; their length.
fn splice(out: &mut [u8], s: &[u8], count: usize, place: usize, taken: usize, new: &[u8]) -> usize
    requires { (count < 65536) × (count_size + record_size * place + record_size * taken ≤ length s.now) × (length s.now + length new.now ≤ length out.old) }
    ensures { (result ≡ length (spliced s.now count place taken new.now)) × (out.new ≡ sets out.old 0 (spliced s.now count place taken new.now)) }
{
    let from = COUNT_BYTES + RECORD_BYTES * place;
    let next = from + RECORD_BYTES * taken;
    wire::put_count(out, 0, count);
    wire::put_bytes(out, COUNT_BYTES, &s[COUNT_BYTES..from]);
    let end = wire::put_bytes(out, from, new);
    wire::put_bytes(out, end, &s[next..])
}

// The changed bytes of a list of `count` rules at the front of the buffer, and their length; or 9, or 3 for the record.
pub fn change_list(s: &[u8], count: usize, request: Request, new: &[u8], out: &mut [u8]) -> Answer
    requires { (1 ≤ count) × (count ≤ most_in request.which) × (list_size count ≤ length s.now) × (length s.now + record_size ≤ length out.old) }
    ensures { ListChanged (changed_bytes s.now count request.place request.change new.now) out.old result out.new }
{
    let place = request.place;
    let (taken, put) = taken_and_put(request.change);
    let left = count - taken;
    if left < place {
        return Err(Refusal::NoPlace);
    }
    if !is_whole(put, new) {
        return Err(Refusal::LengthWrong);
    }
    let size = RECORD_BYTES * put;
    Ok(splice(out, s, left + put, place, taken, &new[..size]))
}
