// The fresh state of a table (rules 5.1 to 5.5). It takes any table whatever.
#![tactic(auto)]

pub mod start;
