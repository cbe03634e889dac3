// Nobody drops out unseen, through the exported functions alone. No code runs here: specs/Library.antt states it, proofs/ proves it.
#![tactic(auto)]
