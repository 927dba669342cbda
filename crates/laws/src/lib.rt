// Laws that the kit lacks and several crates need, in proofs/. There is no code here.
#![tactic(auto)]
