// Traces: what a record is and where reading stands. `Place::read` reads the record at a place.
#![tactic(auto)]

use model::{Entry, Event};

// A place in a trace, by value: the offset of a record. Reading answers the record with the next place (rule 13.8).
#[derive(Clone, Copy)]
pub struct Place {
    pub at: usize,
}

#[derive(Clone, Copy)]
pub enum Record {
    // kind 16: processors, tasks, resources
    Counts(u16, u16, u16),
    // kind 17: Q, P and the declared set of one task
    Reservation(Entry),
    // kinds 1 to 8
    Happening(Event),
}

pub mod kinds;
pub mod lines;
mod reading;
