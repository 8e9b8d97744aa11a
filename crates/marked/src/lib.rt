// The marked examples of document 01 are in specs/, and their theorem is in proofs/. There is no code here.

#![tactic(auto)]
