// What a lesson will lose: which of the eight places of document 01 a tree uses, and where.
#![tactic(auto)]

pub mod firsts;
pub mod places;
pub mod search;
pub mod uses;

pub use search::{Loss, Lost, lost};
