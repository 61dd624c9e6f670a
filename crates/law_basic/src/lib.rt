// Laws about the definitions of document 01 on bytes, lists, masks, fields and stores are in specs/. There is no code here.
#![tactic(auto)]
