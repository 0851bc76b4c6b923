// Groups that stand in a sheet: counted, and the gap found that some of them leave.
#![tactic(auto)]

ghost use Rattle.std.specs.Prelude.{◌≡◌, ◌+◌, ◌≤◌, length};
ghost use Rattle.kept.specs.Steps.{run_size};
ghost use Rattle.sheet.specs.Steps.{box_count};

use policy::{BOX_BYTES, COUNT_BYTES};

// Where the groups before those that go end, where the ones behind them begin, and how many boxes go.
#[derive(Clone, Copy)]
pub struct Gap {
    pub at: usize,
    pub next: usize,
    pub boxes: usize,
}

// How many boxes the first n groups have. A group's length stands in its bytes, so that the walk counts where it is.
pub fn count_boxes(s: &[u8], n: usize) -> usize
    requires { run_size n s.now ≤ length s.now }
    ensures { result ≡ box_count n s.now }
{
    let mut boxes: usize = 0;
    let mut at: usize = 0;
    for _ in 0..n {
        let count = wire::count_at(s, at);
        boxes += count;
        at += COUNT_BYTES + BOX_BYTES * count;
    }
    boxes
}

// The gap that so many groups behind the first ones leave.
pub fn find_gap(s: &[u8], earlier: usize, gone: usize) -> Gap
    requires { run_size (earlier + gone) s.now ≤ length s.now }
    ensures { (result.at ≡ run_size earlier s.now) × (result.next ≡ run_size (earlier + gone) s.now) × (result.boxes + box_count earlier s.now ≡ box_count (earlier + gone) s.now) }
{
    let front = count_boxes(s, earlier);
    let at = COUNT_BYTES * earlier + BOX_BYTES * front;
    let boxes = count_boxes(&s[at..], gone);
    Gap {
        at,
        next: at + COUNT_BYTES * gone + BOX_BYTES * boxes,
        boxes,
    }
}
