// Laws of a call of the host on bytes alone (specs/): what it leaves, from what the call on the decoded state leaves. There is no code here.
#![tactic(auto)]
