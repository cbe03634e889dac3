#![tactic(auto)]

// The few words that every definition here is written with stand in specs/: a choice between two values by a test, and what
// follows from a test. No code runs here.
