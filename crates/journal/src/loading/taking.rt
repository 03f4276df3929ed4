// The edits of a journal, taken into an archive one after another.
// `same_slice`: that the table stays the caller's slice speaks of two values, so that no invariant of its type can say it.
ghost use Rattle.std.specs.Prelude.{◌≡◌, ◌<◌, length};
ghost use Rattle.archive.specs.Calling.{archive_of};
ghost use Rattle.journal.specs.Format.{coding};
ghost use Rattle.journal.specs.Loading.{LoadLaw};
ghost use Rattle.journal.specs.Taking.{ended, OneTaken};

use super::opening::Opening;
use super::records::opening_at;
use super::sending::send;
use crate::fault::LoadFault;
use crate::read::{check_head, read_row};
use archive::{Accepted, EditFault, NodeTable, Version};
use store::BlockStore;
use summary::Summary;

// Where an edit that the archive accepted ends; its refusal, with the byte place of its record.
fn ended(answer: Result<Accepted, EditFault>, at: usize, end: usize) -> Result<usize, LoadFault>
    ensures { result ≡ ended answer at end }
{
    match answer {
        Ok(_) => Ok(end),
        Err(fault) => Err(LoadFault {
            fault: fault.into(),
            place: at,
        }),
    }
}

// Takes in the edit whose record stands at a place, and answers where it ends. Its readings go to the row area.
fn take_in<S: BlockStore, Q: Summary<Reading = S::Reading>>(
    table: &mut NodeTable<'_, Q>,
    versions: &mut [Version],
    store: &mut S,
    bytes: &[u8],
    at: usize,
    area: &mut [S::Reading],
) -> Result<usize, LoadFault>
    requires { at < length bytes.now }
    ensures taken { OneTaken Q.Summary.means S.BlockStore (coding S.Reading.Reading.own)
        (archive_of table.old versions.old store.old) area.old bytes.now at result
        (archive_of table.new versions.new store.new) area.new }
    ensures same_slice { table.new.nodes.ghost_name ≡ table.old.nodes.ghost_name }
{
    let Opening { step, count, next } = opening_at(bytes, at, area.len()).map_err(
        |fault| LoadFault { fault, place: at },
    )?;
    let end = read_row(bytes, next, count, area)?;
    let answer = send(table, versions, store, step, &area[..count]);
    ended(answer, at, end)
}

// Takes in the edits of a journal, one after another, up to its end or to the first fault; answers how many versions there are then.
pub(crate) fn take_in_all<S: BlockStore, Q: Summary<Reading = S::Reading>>(
    table: &mut NodeTable<'_, Q>,
    versions: &mut [Version],
    store: &mut S,
    bytes: &[u8],
    area: &mut [S::Reading],
) -> Result<u32, LoadFault>
    ensures law { LoadLaw Q.Summary.means S.BlockStore (coding S.Reading.Reading.own)
        (archive_of table.old versions.old store.old) area.old bytes.now result
        (archive_of table.new versions.new store.new) area.new }
    ensures same_slice { table.new.nodes.ghost_name ≡ table.old.nodes.ghost_name }
{
    check_head::<S::Reading>(bytes).map_err(|fault| LoadFault { fault, place: 0 })?;
    // A place that moves on, since a record has no fixed length: only taking it in tells where the next begins.
    let mut at = 3;
    while at < bytes.len() {
        at = take_in(table, versions, store, bytes, at, area)?;
    }
    Ok(table.count())
}
