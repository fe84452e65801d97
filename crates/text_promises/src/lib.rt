// What the program's text promises, as theorems about the definitions that the contracts of `text` cite: stated in specs/, proved in proofs/. There
// is no function here.

#![tactic(auto)]
