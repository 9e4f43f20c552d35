// The demands as tests that can be computed, on small calls: each holds under the rules, and fails under a wrong rule that `tools/wrong-rules` tries. No code.
#![tactic(auto)]
