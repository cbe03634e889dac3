// What every desk that steps can reach keeps: one definition, proved of a fresh desk and kept by every step. No code runs here.
#![tactic(auto)]
