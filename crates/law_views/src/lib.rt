// Laws of the view of the bytes (specs/): the view after stores is the stores applied to the view. There is no code here.
#![tactic(auto)]
