// What the member and the auditor asked of a cut, as statements about the rules. They are proved in the crates `keeps` and `shortest`. No code.
#![tactic(auto)]
