// The three demands as theorems about the definitions that the contracts cite: stated in specs/, proved in proofs/. There is no function here.

#![tactic(auto)]
