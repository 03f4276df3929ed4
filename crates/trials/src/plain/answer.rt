// What the plain lists answer to a call.

#[derive(Clone, Copy, PartialEq, Eq, Debug)]
pub enum Answer<R> {
    // The new version's number, how many nodes the edit wrote, and how many its path has, or its two paths together.
    Edited {
        version: u32,
        written: usize,
        path: usize,
    },
    Read {
        reading: R,
        path: usize,
    },
    Spanned(usize),
    // The summary of these readings of the version.
    Summed {
        version: u32,
        a: u32,
        b: u32,
    },
    // The number of a refusal, and the number of the store's cause, 0 for none.
    Refused(u32, u32),
}
