// What the definitions compute on the drives, and the machine's predicates over stored items: definitions and laws are in specs/.
#![tactic(auto)]
