// A written table, read back: where each kept pair went, the header, the maps. No code.
#![tactic(auto)]
