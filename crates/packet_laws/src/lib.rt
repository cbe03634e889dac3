// What is written reads back as the same message; what was read, written again, reads the same (laws: stated in specs/, proved in proofs/).
#![tactic(auto)]
