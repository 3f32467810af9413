// One event at a time: the layer's entry point. It takes any state whatever and any event.
#![tactic(auto)]

mod answer;
pub mod step;
