// The soundness test of a state (rules 4.1 to 4.16), which takes any state whatever.
#![tactic(auto)]

mod entries;
mod lists;
mod reading;
pub mod sound;
