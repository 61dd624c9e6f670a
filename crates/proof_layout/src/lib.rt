// "The drives hold the published layout", proved of the definitions on what a finished restart of any accepted image left and after every uncut call
// (specs/); demand 2 with the state as a value, put together. There is no code here.
#![tactic(auto)]
