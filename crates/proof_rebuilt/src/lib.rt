// What demand 2 claims of a rebuild, on any image that a restart accepted, is proved in specs/. There is no code here.
#![tactic(auto)]
