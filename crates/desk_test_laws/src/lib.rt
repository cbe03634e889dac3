// The test of a desk decides: it passes exactly the sound desks, so every desk that steps can reach. Laws of crates core_test and seats_test,
// stated in specs/ and proved in proofs/. No code runs here.
#![tactic(auto)]
