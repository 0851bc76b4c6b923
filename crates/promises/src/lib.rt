// What the planner's calls promise: the statement of each of them, demands 2 and 3 and the theorems over them. There are no
// functions here: whoever builds on the statements needs none of the crates that do the calls. What an edit is asked to do is
// declared, since statements name it.
#![tactic(auto)]

// What an edit does at its place.
#[derive(Clone, Copy)]
pub enum Change {
    Insert,
    Delete,
    Replace,
}

// What an edit is asked to do: which list it changes, A (0) or B (1), at which place, and how. The list is a number, since C hands over
// any, and number 9 for another list comes after every refusal of the sheet.
#[derive(Clone, Copy)]
pub struct Request {
    pub which: u32,
    pub place: usize,
    pub change: Change,
}
