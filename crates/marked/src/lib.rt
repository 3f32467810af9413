// No code: the marked examples, computed by the checker from the definitions.
#![tactic(auto)]
