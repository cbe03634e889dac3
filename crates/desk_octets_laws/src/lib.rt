// One desk has one string of octets, and one string stands for one desk: laws of crate desk_octets, stated in specs/ and proved in proofs/. No
// code runs here.
#![tactic(auto)]
