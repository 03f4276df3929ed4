//! The sharing layer: a store over any store, that answers a row which it has seen lately with the block it already is. A put compares the
//! row with at most 32 blocks; every other call is the one below.
#![tactic(auto)]

mod compare;
mod piles;
mod recent;
mod sharing;

pub use piles::pile_meaning;
pub use sharing::Sharing;
