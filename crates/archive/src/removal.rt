// A removal: the look, the walk, the record. The store is not touched: it is named for the law, by which it still stands for the edits.
ghost use Rattle.std.specs.Prelude.{◌<◌, ◌≤◌, OnOk, IfOk};
ghost use Rattle.archive.specs.Stands.{tables_of};
ghost use Rattle.archive.specs.Calling as asked;
ghost use Rattle.archive.specs.Editing.{EditLeft, RemovalLaw};

use crate::fault::EditFault;
use crate::look::look_removal;
use crate::version::{Kind, Version};
use nodes::{Built, Node, blocks_in, put, readings_in, write_removal};
use store::BlockStore;
use summary::Summary;

// Removes a block from the tables: answers the root of the new version and the next free node.
pub(crate) fn removal_in<S: BlockStore, Q: Summary<Reading = S::Reading>>(
    nodes: &mut [Node<Q>],
    used: u32,
    versions: &mut [Version],
    count: u32,
    store: &S,
    base: u32,
    place: u32,
) -> Result<Built, EditFault>
    ensures left { EditLeft Q.Summary.means S.BlockStore
        (tables_of nodes.old used versions.old count) store.now (asked.Asked.removal base place)
        result nodes.new versions.new store.now }
    ensures law { RemovalLaw Q.Summary.means S.BlockStore.rows
        (tables_of nodes.old used versions.old count) store.now base place result nodes.new
        versions.new }
    ensures room { OnOk result (count < 4096) }
    ensures more { IfOk result (λ built. used ≤ built.used) }
{
    let from = look_removal(nodes, used, versions, count, base, place)?;
    let built = write_removal(nodes, used, from.root, place + 1);
    let blocks = blocks_in(nodes, built.root);
    let readings = readings_in(nodes, built.root);
    let version = Version {
        parent: base,
        edit: Kind::Removal,
        place,
        blocks,
        readings,
        ..Version::default()
    };
    put(versions, count as usize, version.walked(used, built));
    Ok(built)
}
