// The events of a tree: definitions only, which the printers' contracts cite.
#![tactic(auto)]
