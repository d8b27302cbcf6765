// No code: the bits of a number as definitions, and laws on them.
#![tactic(auto)]
