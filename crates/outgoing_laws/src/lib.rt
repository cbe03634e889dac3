// The law that what the desk sends reads back. No code runs here.
#![tactic(auto)]
