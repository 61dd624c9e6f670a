// The stores of a restart are the machine's steps: definitions and laws are in specs/.
#![tactic(auto)]
