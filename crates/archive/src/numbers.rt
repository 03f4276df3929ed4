// The numbers of refusals. Written out, since an enum with a value in a variant has no numbers of its own; the questions' beside the edits'.
ghost use Rattle.std.specs.Prelude.{◌≡◌};
ghost use Rattle.archive.specs.Refusals.{edit_number, inner_cause, read_number};

use crate::fault::{EditFault, ReadFault};

impl EditFault {
    /// The number of an edit's refusal, 1 to 8.
    pub fn number(&self) -> u32
        ensures { result ≡ edit_number self.now }
    {
        match self {
            EditFault::Version => 1,
            EditFault::Place => 2,
            EditFault::Level => 3,
            EditFault::RowLength => 4,
            EditFault::Blocks => 5,
            EditFault::Versions => 6,
            EditFault::Nodes => 7,
            EditFault::Store(_) => 8,
        }
    }

    /// The number of the store's cause, 0 where the store did not refuse. No option: by the project's rule a report prints 0 for none.
    pub fn cause(&self) -> u32
        ensures { result ≡ inner_cause self.now }
    {
        match self {
            EditFault::Store(cause) => cause.number(),
            _ => 0,
        }
    }
}

impl ReadFault {
    /// The number of a question's refusal: 1, 2 or 9.
    pub fn number(&self) -> u32
        ensures { result ≡ read_number self.now }
    {
        match self {
            ReadFault::Version => 1,
            ReadFault::Position => 2,
            ReadFault::Output => 9,
        }
    }
}
