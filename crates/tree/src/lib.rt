// The stored tree: its grammar, its check, and reading its records.
#![tactic(auto)]

pub mod check;
pub mod codes;
pub mod grammar;
pub mod own;
pub mod parts;

pub use check::check_tree;
