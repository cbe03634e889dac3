// What C programs keep in lent octets stays a desk that steps can reach: laws of crate floor, stated in specs/ and proved in proofs/. No code
// runs here.
#![tactic(auto)]
