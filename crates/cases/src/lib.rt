// What the programs `replay` and `lesson` share: how a case is read from a stream, and the records of a tree that use
// one of the eight places, one after the other.
#![tactic(auto)]

pub mod input;
pub mod uses;
