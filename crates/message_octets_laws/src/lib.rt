// Laws of crate message_octets: what the 40 octets of a message keep of it. Nothing that runs rests on them.
#![tactic(auto)]
