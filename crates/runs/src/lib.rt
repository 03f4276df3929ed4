//! The law over runs: what any calls on an archive answer and leave, one after another, and the call that carries out a list of them. Carrying out a
//! list takes the time of its calls.
#![tactic(auto)]

mod call;
mod laws;
mod ran;
mod reply;
mod running;
mod steps;

pub use call::Call;
pub use laws::runs_lawful;
pub use ran::Ran;
pub use reply::Reply;
pub use running::{carry_on, carry_out};
