// Where the blocks of a store end: at most 1,000 blocks, each of which ends 1 to 1,024 readings past the one before.
ghost use Rattle.std.specs.Prelude.{◌≡◌, true};
ghost use Rattle.store.specs.Cuts.{rising};

use arrayvec::ArrayVec;

mod blocks;

#[derive(Drop)]
pub struct Directory {
    ends: ArrayVec<u32, 1000>,
    ghost rises: { rising 0 ends.items ≡ true },
}

/// Where a block stands: its first reading, and the one past its last.
#[derive(Clone, Copy)]
pub struct Span {
    pub from: u32,
    pub to: u32,
}
