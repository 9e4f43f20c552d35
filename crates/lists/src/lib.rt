// Lists: the words that the definitions are written in, and the laws that the proofs cite. No code.
#![tactic(auto)]
