// Laws that the calls share (specs/): checks in order, the store count, which eighth takes a block, parity in flight. There is no code here.
#![tactic(auto)]
