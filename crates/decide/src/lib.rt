// Laws only, in proofs/: a test, and what it picks.
#![tactic(auto)]
