// Laws about the stored tree, which stand above the crate `tree` so that its own check stays short. There is no code
// here.
#![tactic(auto)]
