// Faulty servers, each with a short history at which a demand fails for it. No code runs here; the laws stand in specs/Faults.antt.
#![tactic(auto)]
