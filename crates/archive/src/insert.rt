// An insert: the look, the row into the store, its block, the walk, the record.
ghost use Rattle.std.specs.Prelude.{◌<◌, ◌≤◌, OnOk, IfOk};
ghost use Rattle.archive.specs.Stands.{tables_of};
ghost use Rattle.archive.specs.Calling as asked;
ghost use Rattle.archive.specs.Editing.{EditLeft, InsertLaw};

use crate::block::block_of;
use crate::fault::EditFault;
use crate::look::look_insert;
use crate::version::{Kind, Version};
use nodes::{Built, Node, put, write_insert};
use store::{BlockStore, Cause};
use summary::Summary;

// Inserts a row into the tables: answers the root of the new version and the next free node.
pub(crate) fn insert_in<S: BlockStore, Q: Summary<Reading = S::Reading>>(
    nodes: &mut [Node<Q>],
    used: u32,
    versions: &mut [Version],
    count: u32,
    store: &mut S,
    base: u32,
    place: u32,
    level: u8,
    row: &[S::Reading],
) -> Result<Built, EditFault>
    ensures left { EditLeft Q.Summary.means S.BlockStore
        (tables_of nodes.old used versions.old count) store.old
        (asked.Asked.insert base place level row.now) result nodes.new versions.new store.new }
    ensures law { InsertLaw Q.Summary.means S.BlockStore
        (tables_of nodes.old used versions.old count) store.old base place level row.now result
        nodes.new versions.new store.new }
    ensures room { OnOk result (count < 4096) }
    ensures more { IfOk result (λ built. used ≤ built.used) }
{
    let from = look_insert(nodes, used, versions, count, base, place, level, row.len())?;
    let block = block_of(store.put(row)?, row);
    let built = write_insert(nodes, used, from.root, place, level, block);
    let blocks = from.blocks.wrapping_add(1);
    let readings = from.readings.wrapping_add(block.length);
    let version = Version {
        parent: base,
        edit: Kind::Insert,
        place,
        level,
        block: block.number,
        blocks,
        readings,
        ..Version::default()
    };
    put(versions, count as usize, version.walked(used, built));
    Ok(built)
}
