// No code: laws of the machine in proofs/, the words in which they are said in specs/.
#![tactic(auto)]
