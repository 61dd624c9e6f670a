// The tables in memory and the reads against the drives (specs/): what holds between the uncut calls that follow a finished restart. Part of demand 2. There is no code here.
#![tactic(auto)]
