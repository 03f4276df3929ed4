// A change: the look, the row into the store, its block, the walk, the record.
ghost use Rattle.std.specs.Prelude.{◌<◌, ◌≤◌, OnOk, IfOk};
ghost use Rattle.archive.specs.Stands.{tables_of};
ghost use Rattle.archive.specs.Calling as asked;
ghost use Rattle.archive.specs.Editing.{EditLeft, ChangeLaw};

use crate::block::block_of;
use crate::fault::EditFault;
use crate::look::look_change;
use crate::version::{Kind, Version};
use nodes::{Built, Node, blocks_in, put, readings_in, write_change};
use store::{BlockStore, Cause};
use summary::Summary;

// Changes a block of the tables: answers the root of the new version and the next free node.
pub(crate) fn change_in<S: BlockStore, Q: Summary<Reading = S::Reading>>(
    nodes: &mut [Node<Q>],
    used: u32,
    versions: &mut [Version],
    count: u32,
    store: &mut S,
    base: u32,
    place: u32,
    row: &[S::Reading],
) -> Result<Built, EditFault>
    ensures left { EditLeft Q.Summary.means S.BlockStore
        (tables_of nodes.old used versions.old count) store.old
        (asked.Asked.change base place row.now) result nodes.new versions.new store.new }
    ensures law { ChangeLaw Q.Summary.means S.BlockStore
        (tables_of nodes.old used versions.old count) store.old base place row.now result nodes.new
        versions.new store.new }
    ensures room { OnOk result (count < 4096) }
    ensures more { IfOk result (λ built. used ≤ built.used) }
{
    let from = look_change(nodes, used, versions, count, base, place, row.len())?;
    let block = block_of(store.put(row)?, row);
    let built = write_change(nodes, used, from.root, place + 1, block);
    let blocks = blocks_in(nodes, built.root);
    let readings = readings_in(nodes, built.root);
    let version = Version {
        parent: base,
        edit: Kind::Change,
        place,
        block: block.number,
        blocks,
        readings,
        ..Version::default()
    };
    put(versions, count as usize, version.walked(used, built));
    Ok(built)
}
