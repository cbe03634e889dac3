// Laws of the clocks that a step starts anew and stops; statements in specs/Clockwork.antt, proofs in proofs/.
#![tactic(auto)]
