// Causes, and the number of each.
ghost use Rattle.std.specs.Prelude.{◌≡◌};
ghost use Rattle.store.specs.Causes.{cause_number};

/// Why a store refuses a row.
#[derive(Clone, Copy, PartialEq, Eq, Debug)]
pub enum Cause {
    /// The row has no reading, or more than 1,024.
    RowLength,
    /// The store holds as many blocks as it can.
    BlocksFull,
    /// Less is free in the store's area than the row needs.
    AreaFull,
    /// A cause of a store that is not of this crate, by its number.
    Other(u32),
}

impl Cause {
    /// The cause's number.
    pub fn number(&self) -> u32
        ensures { result ≡ cause_number self.now }
    {
        // Written out, since an enum with a value in a variant has no numbers of its own.
        match self {
            Cause::RowLength => 1,
            Cause::BlocksFull => 2,
            Cause::AreaFull => 3,
            Cause::Other(number) => *number,
        }
    }
}
