// What a desk goes through: any event, join and leave among them, and any run of events. No code runs here; the laws stand in specs/.
#![tactic(auto)]
