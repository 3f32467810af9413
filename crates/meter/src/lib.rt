// Meter rows: what a caller sees of the servers, by value and in rows that it lends. Every function takes any state, sound or not.
#![tactic(auto)]

pub mod answer;
pub mod row;
pub mod rows;
