// One call of a list, carried out on an archive.
// `same_slice`: that the table stays the caller's slice speaks of two values, so that no invariant of its type can say it.
ghost use Rattle.std.specs.Prelude.{◌≡◌};
ghost use Rattle.archive.specs.Calling.{archive_of};
ghost use Rattle.runs.specs.Lists.{row_named, SpanInto, CarriedOne};

use crate::call::Call;
use crate::reply::Reply;
use archive::{NodeTable, ReadFault, Version};
use store::BlockStore;
use summary::Summary;

// The row that a call names; where the readings end before it does, a row without readings, which every edit refuses.
pub(crate) fn row_named<R>(readings: &[R], from: usize, len: usize) -> &[R]
    ensures { result.now ≡ row_named readings.now from len }
{
    readings
        .get(from..)
        .and_then(|rest| rest.get(..len))
        .unwrap_or(&[])
}

// A span into the output from a place on; past its end there is no output.
pub(crate) fn span_into<S: BlockStore, Q: Summary<Reading = S::Reading>>(
    table: &NodeTable<'_, Q>,
    versions: &[Version],
    store: &S,
    version: u32,
    a: u32,
    b: u32,
    out: &mut [S::Reading],
    to: usize,
) -> Result<u32, ReadFault>
    ensures { SpanInto Q.Summary.means S.BlockStore (archive_of table.now versions.now store.now)
        version a b to out.old result out.new }
{
    let at = to.min(out.len());
    table.span(versions, store, version, a, b, &mut out[at..])
}

// A match and no table of functions: a call comes as data, and each kind of call has its own arguments and its own promise.
#[tactic(auto, using(crate::proofs::Ones::ones))]
pub(crate) fn carry_one<S: BlockStore, Q: Summary<Reading = S::Reading>>(
    table: &mut NodeTable<'_, Q>,
    versions: &mut [Version],
    store: &mut S,
    readings: &[S::Reading],
    call: Call,
    out: &mut [S::Reading],
) -> Reply<S::Reading, Q>
    ensures carried { CarriedOne Q.Summary.means S.BlockStore readings.now call result
        (archive_of table.old versions.old store.old) out.old
        (archive_of table.new versions.new store.new) out.new }
    ensures same_slice { table.new.nodes.ghost_name ≡ table.old.nodes.ghost_name }
{
    match call {
        Call::Insert {
            base,
            place,
            level,
            from,
            len,
        } => {
            let row = row_named(readings, from, len);
            Reply::Edited(table.insert(versions, store, base, place, level, row))
        }
        Call::Append { base, from, len } => {
            let row = row_named(readings, from, len);
            Reply::Edited(table.append(versions, store, base, row))
        }
        Call::Change {
            base,
            place,
            from,
            len,
        } => {
            let row = row_named(readings, from, len);
            Reply::Edited(table.change(versions, store, base, place, row))
        }
        Call::Remove { base, place } => Reply::Edited(table.remove(versions, store, base, place)),
        Call::Reading { version, position } => {
            Reply::Read(table.reading(versions, store, version, position))
        }
        Call::Span { version, a, b, to } => {
            Reply::Spanned(span_into(table, versions, store, version, a, b, out, to))
        }
        Call::Summary { version, a, b } => {
            Reply::Summed(table.summary(versions, store, version, a, b))
        }
    }
}
