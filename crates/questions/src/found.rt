// What is found of a reading.

/// The block that has the reading, its place in that block's row, and how many nodes are on the path to the block.
#[derive(Clone, Copy, PartialEq, Eq, Debug)]
pub struct Found {
    pub block: u32,
    pub place: u32,
    pub path: u32,
}

/// A reading, and how many nodes are on the path to its block.
#[derive(Clone, Copy, PartialEq, Eq, Debug)]
pub struct Answer<R> {
    pub reading: R,
    pub path: u32,
}
