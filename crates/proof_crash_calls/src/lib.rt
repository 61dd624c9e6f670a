// The calls of a healthy run as steps of the machine: the relation is in specs/, its laws and the lemma that joins them in specs/ and proofs/.
#![tactic(auto)]
