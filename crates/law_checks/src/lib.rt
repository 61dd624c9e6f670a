// What the checks of each call say where none refuses, by the rule's name (specs/). There is no code here.
#![tactic(auto)]
