// Objects that stand in bytes as the rules lay them, read again by the definitions of `opentype`, for all sizes that fit their cells. No code.
#![tactic(auto)]
