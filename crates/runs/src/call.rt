// Calls of a list.

/// A call, without references: it names its row by where it stands in the readings that come beside it. No slice in
/// place of `from` and `len`: a row that does not lie in the readings is part of the promise, and is answered as one
/// without readings.
#[derive(Clone, Copy, PartialEq, Eq, Debug)]
pub enum Call {
    Insert {
        base: u32,
        place: u32,
        level: u8,
        from: usize,
        len: usize,
    },
    Append {
        base: u32,
        from: usize,
        len: usize,
    },
    Change {
        base: u32,
        place: u32,
        from: usize,
        len: usize,
    },
    Remove {
        base: u32,
        place: u32,
    },
    Reading {
        version: u32,
        position: u32,
    },
    /// A span goes to the output from a place on.
    Span {
        version: u32,
        a: u32,
        b: u32,
        to: usize,
    },
    Summary {
        version: u32,
        a: u32,
        b: u32,
    },
}
