// What the octets of a report say, and the laws of it: they say the report, whole, and are written back octet for octet. No code runs here.
#![tactic(auto)]
