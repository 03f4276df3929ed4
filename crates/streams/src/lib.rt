//! What the programs do with their two streams: bytes are read from the front of an input, and bytes are written to an
//! output. The contracts name them, where reader and writer say what they have, and say what an error leaves.
#![tactic(auto)]

mod reading;
mod writing;

pub use reading::{read_all, read_first};
pub use writing::write_whole;

#[cfg(test)]
mod tests;
