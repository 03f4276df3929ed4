// Why a call is refused.
ghost use Rattle.std.specs.Prelude.{◌≡◌};
ghost use Rattle.archive.specs.declared.fault.EditFault.TheVariants.{Store};

use store::Cause;

/// Why an edit is refused: of all causes that there are, the one that stands highest here.
#[derive(Clone, Copy, PartialEq, Eq, Debug)]
pub enum EditFault {
    /// There is no such version.
    Version,
    /// The place is not one of the base's.
    Place,
    /// The level is above 15.
    Level,
    /// The row has no reading, or more than 1,024.
    RowLength,
    /// The base has 500 blocks.
    Blocks,
    /// The table of versions is full.
    Versions,
    /// There are fewer free nodes than the edit may need.
    Nodes,
    /// The store refuses the row.
    Store(Cause),
}

/// Why a question is refused.
#[derive(Clone, Copy, PartialEq, Eq, Debug)]
pub enum ReadFault {
    /// There is no such version.
    Version,
    /// The position is past the end, or a span is turned round.
    Position,
    /// The output is too short.
    Output,
}

impl From<Cause> for EditFault {
    ghost from_gives = { λ c f. f ≡ Store c };

    fn from(cause: Cause) -> EditFault {
        EditFault::Store(cause)
    }
}
