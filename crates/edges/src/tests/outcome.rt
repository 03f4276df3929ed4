// What a call answers, and what a table wants it to answer.
use archive::{Accepted, EditFault, ReadFault};

// Refusals go by their documented numbers, since `number()` and `cause()` are tested too.
#[derive(Clone, Copy, PartialEq, Eq, Debug)]
pub enum Outcome {
    // The new version's number, and how many nodes an edit wrote; none where a table leaves that open.
    Accepted(u32, Option<u32>),
    // The length of a reading's path, or how many readings a span has. Of a summary, which is held to the plain lists, 0.
    Told(u32),
    // The number of a refusal, and the number of the store's cause, 0 for none.
    Refused(u32, u32),
}

impl Outcome {
    // The same, as far as a table says it.
    pub(super) fn as_far_as(self, wanted: Outcome) -> Outcome {
        match (self, wanted) {
            (Outcome::Accepted(version, _), Outcome::Accepted(_, None)) => {
                Outcome::Accepted(version, None)
            }
            _ => self,
        }
    }
}

impl From<Result<Accepted, EditFault>> for Outcome {
    fn from(answer: Result<Accepted, EditFault>) -> Outcome {
        match answer {
            Ok(accepted) => Outcome::Accepted(accepted.version, Some(accepted.written)),
            Err(fault) => Outcome::Refused(fault.number(), fault.cause()),
        }
    }
}

impl From<Result<u32, ReadFault>> for Outcome {
    fn from(answer: Result<u32, ReadFault>) -> Outcome {
        match answer {
            Ok(told) => Outcome::Told(told),
            Err(fault) => Outcome::Refused(fault.number(), 0),
        }
    }
}
