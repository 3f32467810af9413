// What is taken out of a state: the links of its tasks, the ends of their chains by a function that calls itself with the tasks left falling, and what
// rule H reads of servers. Every function takes any state, sound or not.
#![tactic(auto)]

pub mod links;
pub mod servers;
pub mod walk;
