//! The nodes of versions in a table, and the walks over it. A walk takes time in proportion to its path. No edit reads a row: the block that it brings is
//! given with its row's summary.
#![tactic(auto)]

mod change;
mod edits;
mod insert;
mod makers;
mod node;
mod pieces;
mod remove;
mod table;
mod walks;
mod worked;

pub use edits::{write_change, write_insert, write_removal};
pub use node::{Block, Node, Shape};
pub use table::{CAPACITY, blocks_in, entry, kept_block, put, readings_in, view as view_at};
pub use walks::Built;
pub use worked::worked_values;
