// The customer's demands as statements over the lent bytes (specs/). They are proved in the crates proof_..; there is no code here.
#![tactic(auto)]
