// The meaning of rule files is in specs/, and its theorems are in proofs/. There is no code here.

#![tactic(auto)]
