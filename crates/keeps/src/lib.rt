// Demand 2: a cut keeps every kept delta under its region, and so what every listed glyph reads. No code.
#![tactic(auto)]
