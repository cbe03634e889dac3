// The ways in which any event on any desk can go: one walk of the rules, on which every law of the desk rests. No code runs here.
#![tactic(auto)]
