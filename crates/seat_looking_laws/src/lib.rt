// The law of how many octets a C program is shown of a seat; the statement in specs/Lengths.antt, its proof in proofs/. No code runs here.
#![tactic(auto)]
