// Chunks as the walk makes them and the column setter takes them: one after the other in a lent slice.
#![tactic(auto)]

pub mod append;
pub mod judged;
pub mod list;
pub mod stored;
