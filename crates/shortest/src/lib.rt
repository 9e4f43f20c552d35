// Demand 3: no form of a written subtable has shorter rows, no fewer inner bits would do in a written map. No code.
#![tactic(auto)]
