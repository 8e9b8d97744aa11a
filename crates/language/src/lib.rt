// What text is a file, and what is answered, is in specs/, and the theorems on it are in proofs/. There is no code here.

#![tactic(auto)]
