// Bytes as text: blank and ink, two-byte numbers, and stores into a lent buffer.
#![tactic(auto)]

pub mod blanks;
pub mod characters;
pub mod numbers;
pub mod scans;
pub mod stores;
