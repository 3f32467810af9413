// Numbers and text in memory that a caller lends: little-endian numbers, read and written, and text with decimal numbers, written. proofs/ has the laws
// of writing one part after another, and that reading and writing give each other back. Assumes what each function asks.
#![tactic(auto)]

pub mod numbers;
pub mod text;
