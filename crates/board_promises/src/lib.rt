// What the entry for C promises, as theorems about the definitions that the contracts of `board` cite: stated in specs/, proved in proofs/. There
// is no function here.

#![tactic(auto)]
