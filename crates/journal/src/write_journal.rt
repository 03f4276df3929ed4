// Writing an archive's journal: its head, and then what made version 1, version 2 and so on. It takes time in proportion to the journal's length.
ghost use Rattle.std.specs.Prelude.{◌≡◌, ◌<◌};
ghost use Rattle.archive.specs.Calling.{archive_of};
ghost use Rattle.journal.specs.Writing.{Writes, WriteLeft, WriteLaw};
ghost use Rattle.journal.specs.Format.{coding};
ghost use Rattle.journal.specs.Written.{above_first, tables_bytes};

use crate::fault::JournalFault;
use crate::read::head;
use crate::write_bytes::{put, write_versions};
use crate::write_size::journal_size;
use archive::{NodeTable, Version};
use reading::Reading;
use store::BlockStore;
use summary::Summary;

// The records in use but that of version 0.
fn above_first(versions: &[Version], count: u32) -> &[Version]
    ensures { result.now ≡ above_first versions.now count }
{
    let end = versions.len().min(count as usize);
    versions.get(1..end).unwrap_or(&[])
}

// Writes what the tables hold, whatever that is, to the output's start; an output that is too short is refused, and stays.
fn write_tables<S: BlockStore>(
    versions: &[Version],
    count: u32,
    store: &S,
    out: &mut [u8],
) -> Result<usize, JournalFault>
    ensures { Writes (tables_bytes (coding S.Reading.Reading.own) (S.BlockStore.rows store.now)
        versions.now count) out.old result out.new }
{
    let records = above_first(versions, count);
    let total = journal_size(store, records);
    if out.len() < total {
        return Err(JournalFault::Area);
    }
    put(out, 0, &head::<S::Reading>());
    write_versions(store, records, out, 3);
    Ok(total)
}

/// Writes the journal of an archive to the output's start, and answers how many bytes it has; behind it the output keeps what it had. An output that is
/// too short is refused, and stays. The kind's code is to be below 252, so that the kind byte of a reading's record is one.
pub fn write<S: BlockStore, Q: Summary<Reading = S::Reading>>(
    table: &NodeTable<'_, Q>,
    versions: &[Version],
    store: &S,
    out: &mut [u8],
) -> Result<usize, JournalFault>
    ensures left { WriteLeft out.old result out.new }
    ensures exact { Writes (tables_bytes (coding S.Reading.Reading.own)
        (S.BlockStore.rows store.now) versions.now table.now.count) out.old result out.new }
    ensures law { S.Reading.Reading.CODE < 252 → WriteLaw Q.Summary.means S.BlockStore
        (coding S.Reading.Reading.own) (archive_of table.now versions.now store.now) out.old
        result out.new }
{
    write_tables(versions, table.count(), store, out)
}
