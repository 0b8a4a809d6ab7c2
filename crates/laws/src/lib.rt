// Laws of numbers, lists and row-major planes that the proofs above cite, in specs/. No code.
#![tactic(auto)]
