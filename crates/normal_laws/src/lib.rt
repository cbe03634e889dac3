// The normal level (document 02, #101) beside document 01: with level 0 nothing differs. No code runs here; the laws stand in specs/.
#![tactic(auto)]
