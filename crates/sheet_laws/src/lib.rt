// What is saved loads again, and what loads is saved as the same octets (laws: stated in specs/, proved in proofs/).
#![tactic(auto)]
