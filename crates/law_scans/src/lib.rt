// Laws of loops that test the numbers of a range or the elements of a list (specs/). There is no code here.
#![tactic(auto)]
