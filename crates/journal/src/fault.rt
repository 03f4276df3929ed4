// Why a journal is refused.
ghost use Rattle.std.specs.Prelude.{◌≡◌};
ghost use Rattle.journal.specs.declared.fault.JournalFault.TheVariants.{Edit};

use archive::EditFault;

/// Why loading stopped, or writing was refused.
#[derive(Clone, Copy, PartialEq, Eq, Debug)]
pub enum JournalFault {
    /// The row area, or the output, is too short.
    Area,
    /// The journal ends inside a record, or where a reading is due.
    Ends,
    /// A record of this kind may not stand there.
    Kind,
    /// There are three bytes or more, and those in front are no head for this kind of reading.
    Head,
    /// The record's row has no reading, or more than 1,024.
    RowLength,
    /// No reading of this kind encodes to the bytes.
    Reading,
    /// The archive refuses the edit.
    Edit(EditFault),
}

/// A fault, and where the record at fault begins, counted in bytes.
#[derive(Clone, Copy, PartialEq, Eq, Debug)]
pub struct LoadFault {
    pub fault: JournalFault,
    pub place: usize,
}

impl From<EditFault> for JournalFault {
    ghost from_gives = { λ e f. f ≡ Edit e };

    fn from(fault: EditFault) -> JournalFault {
        JournalFault::Edit(fault)
    }
}
