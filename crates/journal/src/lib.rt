//! Journals: an archive as bytes, to be exchanged between benches.
#![tactic(auto)]

mod fault;
mod loading;
mod numbers;
mod read;
mod trips;
mod write_bytes;
mod write_journal;
mod write_size;
#[cfg(test)]
mod write_tests;

pub use fault::{JournalFault, LoadFault};
pub use loading::{Loaded, load};
pub use trips::{comes_back, loads_back};
pub use write_journal::write;

#[cfg(test)]
mod tests;
