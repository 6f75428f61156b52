// Laws on what a function lends: a struct, or slices (proofs/LendLaws.antt). No code.

#![tactic(auto)]
