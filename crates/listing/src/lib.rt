// The listing of a replay, written into a lent buffer: `whole::replay`. specs/ has the whole text, byte for byte, from the trace's bytes.
#![tactic(auto)]

use model::Refusal;

// The buffer lent for a text is too short for a file of that length.
#[derive(Clone, Copy)]
pub struct TooShort;

// Where a listing stops, and why (rule 14.3).
#[derive(Clone, Copy)]
pub(crate) struct Stop {
    pub(crate) at: usize,
    pub(crate) refusal: Refusal,
}

pub mod buffers;
mod closing;
mod happenings;
mod lines;
mod table;
pub mod whole;
mod writer;
