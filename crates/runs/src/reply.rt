// What a call answers.
use archive::{Accepted, EditFault, ReadFault};
use questions::Answer;

/// What a call of a list answers.
#[derive(Clone, Copy, PartialEq, Eq, Debug)]
pub enum Reply<R, Q> {
    Edited(Result<Accepted, EditFault>),
    Read(Result<Answer<R>, ReadFault>),
    Spanned(Result<u32, ReadFault>),
    Summed(Result<Q, ReadFault>),
}
