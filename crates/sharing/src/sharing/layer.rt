// The layer as a store.
ghost use Rattle.std.specs.Prelude.{◌≡◌, []};
ghost use Rattle.sharing.specs.Lawful.{layer_lawful};
ghost use Rattle.sharing.specs.Remembering.{remembered, candidates, is_sized, First};
ghost use Rattle.sharing.specs.Sharings.{shared_rows, shared_refuses, shared_long, Passed, Layered};

use super::Sharing;
use crate::compare::same_row;
use crate::recent::Recent;
use reading::Reading;
use store::{BlockStore, Cause};

// May a row be a block, by its length? No other is looked for: what a store holds from before need not keep the limits.
fn is_sized<R>(row: &[R]) -> bool
    ensures { result ≡ is_sized row.now }
{
    1 <= row.len() && row.len() <= 1024
}

// The newest remembered block that is the row.
fn find<S: BlockStore>(store: &S, recent: &Recent, row: &[S::Reading]) -> Option<u32>
    ensures { First (S.BlockStore.rows store.now) row.now (candidates row.now recent.now) result }
{
    if !is_sized(row) {
        return None;
    }
    for age in 0..32 {
        let block = recent.newest(age)?;
        if same_row(store, block, row) {
            return Some(block);
        }
    }
    None
}

impl<S: BlockStore> Sharing<S> {
    /// A layer that remembers nothing yet, over any store.
    pub fn new(below: S) -> Sharing<S>
        ensures below { result.below ≡ below }
        ensures table { remembered result.recent ≡ [] }
    {
        Sharing {
            below,
            recent: Recent::new(),
        }
    }

    /// The store below, with all that was put into it; what the layer remembered is gone.
    pub fn into_below(self) -> S
        ensures { result ≡ self.below }
    {
        let Sharing { below, recent: _ } = self;
        below
    }

    // Puts a row that is not remembered, and remembers the number that it gets.
    fn pass(&mut self, row: &[S::Reading]) -> Result<u32, Cause>
        ensures { Passed S.BlockStore.rows S.BlockStore.puts self.old row.now result self.new }
    {
        let number = self.below.put(row)?;
        self.recent.note(number);
        Ok(number)
    }
}

// The layer's list and its refusals are made of the store's list and refusals one by one, so the store's members stand apart here.
impl<S: BlockStore> BlockStore for Sharing<S> {
    type Reading = S::Reading;

    ghost rows = { shared_rows S.BlockStore.rows };

    ghost refuses = { shared_refuses S.BlockStore.rows S.BlockStore.refuses };

    ghost area_long = { shared_long S.BlockStore.area_long };

    ghost puts = { Layered S.BlockStore.rows S.BlockStore.puts };

    ghost lawful = { layer_lawful
        S.BlockStore.rows
        S.BlockStore.refuses
        S.BlockStore.area_long
        S.BlockStore.puts
        S.lawful };

    // Answers a remembered block that is the row, and passes any other row down: a match, since that way goes on with the layer itself.
    fn put(&mut self, row: &[S::Reading]) -> Result<u32, Cause> {
        match find(&self.below, &self.recent, row) {
            Some(block) => Ok(block),
            None => self.pass(row),
        }
    }

    fn count(&self) -> u32 {
        self.below.count()
    }

    fn block_len(&self, block: u32) -> Option<u32> {
        self.below.block_len(block)
    }

    fn reading(&self, block: u32, place: u32) -> Option<S::Reading> {
        self.below.reading(block, place)
    }

    fn copy(&self, block: u32, from: u32, out: &mut [S::Reading]) {
        self.below.copy(block, from, out);
    }
}
