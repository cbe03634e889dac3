// The marks of a step are what the line and the holder did in it: laws over any event. No code runs here.
#![tactic(auto)]
