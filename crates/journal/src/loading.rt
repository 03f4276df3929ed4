// Loading a journal. It takes as many steps as the journal has bytes, and the steps of the edits.
// `same_slice`: that the table stays the caller's slice speaks of two values, so that no invariant of its type can say it.
ghost use Rattle.std.specs.Prelude.{◌≡◌};
ghost use Rattle.archive.specs.Calling.{archive_of};
ghost use Rattle.journal.specs.Format.{coding};
ghost use Rattle.journal.specs.Loading.{LoadedFrom};

use archive::{NodeTable, Version};
use nodes::Node;
use store::BlockStore;
use summary::Summary;
use taking::take_in_all;

mod loaded;
mod opening;
mod records;
mod sending;
mod taking;

pub use loaded::Loaded;

/// Begins an archive in the caller's tables, and takes in the edits of a journal, one after another, up to its end or to the first fault, which is told
/// with the place where the record at fault begins. Readings go to the front of the row area as soon as they are read. What was taken in before a fault
/// stays.
pub fn load<'a, S: BlockStore, Q: Summary<Reading = S::Reading>>(
    bytes: &[u8],
    nodes: &'a mut [Node<Q>],
    versions: &mut [Version],
    store: &mut S,
    area: &mut [S::Reading],
) -> Loaded<'a, Q>
    ensures loaded { LoadedFrom Q.Summary.means S.BlockStore (coding S.Reading.Reading.own)
        nodes.old versions.old store.old area.old bytes.now result.answer
        (archive_of result.table versions.new store.new) area.new }
    ensures same_slice { result.table.nodes.ghost_name ≡ nodes.entry.ghost_name }
{
    let mut table = NodeTable::begin(nodes, versions);
    let answer = take_in_all(&mut table, versions, store, bytes, area);
    Loaded { table, answer }
}
