// The column setter: a stored chunk list becomes text in columns.
#![tactic(auto)]

pub mod line;
pub mod lines;
pub mod piece;
pub mod setter;
pub mod sink;
pub mod store;

pub use setter::join_chunks;
