// Laws of what the drives hold and of what lists of stores do to it (specs/): zones, segments, tables, and the stores of a restart and a rebuild. There is no code here.
#![tactic(auto)]
