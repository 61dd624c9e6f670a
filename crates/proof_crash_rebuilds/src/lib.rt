// The stores of a rebuild are the machine's steps: definitions and laws are in specs/.
#![tactic(auto)]
