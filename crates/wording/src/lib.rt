// What the command `lesson` says, as lines in a lent buffer: refusals as sentences, records, chunks and losses.
#![tactic(auto, using(crate::proofs::Pieces::joined), unfolding(crate::specs::Lines::puts, crate::specs::Lines::ascii))]

pub mod buffers;
mod entries;
pub mod lines;
mod names;
pub mod places;
pub mod records;
pub mod sentences;
