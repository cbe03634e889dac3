// Nobody drops out unseen: demand 3 over any sequence of events. No code runs here: specs/Demands.antt states it, proofs/ proves it.
#![tactic(auto)]
