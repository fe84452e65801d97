// What a rule means: mathematics only. The definitions are in specs/, their laws in proofs/; there is no function here.

#![tactic(auto)]
