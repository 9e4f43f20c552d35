// Laws of the rules, which the code's proofs and the theorems both cite. No code.
#![tactic(auto)]
