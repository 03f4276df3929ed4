// The numbers of faults.
ghost use Rattle.std.specs.Prelude.{◌≡◌};
ghost use Rattle.journal.specs.Faults.{fault_number, inner_refusal, store_cause};

use crate::fault::JournalFault;

impl JournalFault {
    /// The number of a fault, 9 to 15.
    pub fn number(&self) -> u32
        ensures { result ≡ fault_number self.now }
    {
        // Written out, since an enum with a value in a variant has no numbers of its own.
        match self {
            JournalFault::Area => 9,
            JournalFault::Ends => 10,
            JournalFault::Kind => 11,
            JournalFault::Head => 12,
            JournalFault::RowLength => 13,
            JournalFault::Reading => 14,
            JournalFault::Edit(_) => 15,
        }
    }

    /// The number of the edit's refusal inside it, 0 where there is none; no option here and below, since by the project's rule a report prints 0.
    pub fn refusal(&self) -> u32
        ensures { result ≡ inner_refusal self.now }
    {
        match self {
            JournalFault::Edit(fault) => fault.number(),
            _ => 0,
        }
    }

    /// The number of the store's cause inside the edit's refusal, 0 where there is none.
    pub fn cause(&self) -> u32
        ensures { result ≡ store_cause self.now }
    {
        match self {
            JournalFault::Edit(fault) => fault.cause(),
            _ => 0,
        }
    }
}
