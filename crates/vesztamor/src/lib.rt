// What the static library offers the kernel desk and tests: functions on numbers and lent bytes, total. An answer is one number of 64 bits
// (specs/Packed.antt); a refusal writes nothing. Layouts are in docs/STATE.md. The crate `vesztamor_c` gives them to C. Assumes nothing.
#![tactic(auto)]

mod answers;
pub mod bounds;
pub mod layouts;
pub mod metering;
pub mod replaying;
mod sections;
mod sized;
mod sound;
pub mod states;
pub mod stepping;
mod tables;
