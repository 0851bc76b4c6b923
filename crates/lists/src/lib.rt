// Laws on lists and tests that the crates above share. There is no code here.
#![tactic(auto)]
