//! The trace archive: what its tables stand for, its refusals, and its calls: begin, the edits and the questions.
#![tactic(auto)]

mod ask;
mod begin;
mod block;
mod change;
mod fault;
mod insert;
mod look;
mod numbers;
mod removal;
mod steps;
mod table;
mod version;

pub use fault::{EditFault, ReadFault};
pub use steps::{nodes_hold, steps_stand};
pub use table::{Accepted, NodeTable};
pub use version::{Kind, Version};
