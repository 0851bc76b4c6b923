// The pair sheet of an edit, written around what stands in its buffer already: what is kept is moved by one record at most.
// A sheet and its layout are two parameters, since the layout tells what the sheet was: a type of both would be wrong once it is written.
#![tactic(auto)]

ghost use Rattle.std.specs.Prelude.{◌≡◌, ◌+◌, length, take, drop};
ghost use Rattle.std.proofs.lemmas.List.Edits.{sets};
ghost use Rattle.wire.specs.Buffers.{filled};
ghost use Rattle.sheet.specs.Pairs.{pair_size};
ghost use Rattle.edit_sheet.specs.Steps.{RoomReady, group_count, with_gate, GatePut, with_own, OwnPut};

use policy::{COUNT_BYTES, RECORD_BYTES};
use sheet::{PAIR_BYTES, PairLayout};

// The groups of an edited A that are kept: so many before the place, of so many bytes, and so many behind it.
#[derive(Clone, Copy)]
pub struct Kept {
    pub before: usize,
    pub size: usize,
    pub behind: usize,
}

// The n bytes that begin at `from`, moved to `to`. One record up or down is a distance that the compiler knows, so that it moves the
// bytes in one go: copy_within over a distance that it does not know takes about three times as long.
fn make_room(sheet: &mut [u8], from: usize, to: usize, n: usize)
    requires { RoomReady sheet.old from to n }
    ensures { sheet.new ≡ sets sheet.old to (take n (drop from sheet.old)) }
{
    if from < to {
        wire::copy_up(&mut sheet[from..], RECORD_BYTES, n);
    } else if to < from {
        wire::copy_down(&mut sheet[to..], RECORD_BYTES, 0, n);
    }
}

// The pair sheet of a new A: its list, B, the count of groups, those kept before the place, which stand in the sheet, the new ones and
// those kept behind the place, which are handed over in this order, and zeros; its length.
pub fn put_gate(
    sheet: &mut [u8],
    old: PairLayout,
    list: &[u8],
    kept: Kept,
    fresh: usize,
    behind: &[u8],
) -> usize
    requires { GatePut sheet.old old list.now kept fresh behind.now }
    ensures { (result ≡ length (with_gate sheet.old old list.now kept.size (group_count kept fresh) behind.now)) × (sheet.new ≡ filled pair_size sheet.old (with_gate sheet.old old list.now kept.size (group_count kept fresh) behind.now)) }
{
    let middle = old.order.middle;
    let own = old.order.end - middle;
    let next = list.len();
    let size = kept.size;
    let rest = fresh + kept.behind;
    make_room(sheet, middle, next, own + COUNT_BYTES + size);
    wire::put_bytes(sheet, 0, list);
    wire::put_count(sheet, next + own, kept.before + rest);
    let start = next + own + COUNT_BYTES + size;
    draft::put_groups(sheet, start, rest, behind);
    let end = start + behind.len();
    wire::zero(sheet, end, PAIR_BYTES);
    end
}

// The pair sheet of a new B, with section C moved along behind it, and zeros; its length.
pub fn put_own(sheet: &mut [u8], old: PairLayout, list: &[u8]) -> usize
    requires { OwnPut sheet.old old list.now }
    ensures { (result ≡ length (with_own sheet.old old list.now)) × (sheet.new ≡ filled pair_size sheet.old (with_own sheet.old old list.now)) }
{
    let middle = old.order.middle;
    let third = old.order.end;
    let next = middle + list.len();
    let behind = old.end - third;
    make_room(sheet, third, next, behind);
    wire::put_bytes(sheet, middle, list);
    let end = next + behind;
    wire::zero(sheet, end, PAIR_BYTES);
    end
}
