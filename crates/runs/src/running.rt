// A list of calls, carried out one after another on an archive.
// `same_slice`: that the table stays the caller's slice speaks of two values, so that no invariant of its type can say it.
ghost use Rattle.std.specs.Prelude.{◌≡◌, min, length, take, drop};
ghost use Rattle.archive.specs.Calling.{archive_of};
ghost use Rattle.runs.specs.Lists.{Carried, CarriedOn};

use crate::call::Call;
use crate::ran::Ran;
use crate::reply::Reply;
use crate::steps::carry_one;
use archive::{NodeTable, Version};
use nodes::Node;
use store::BlockStore;
use summary::Summary;

/// Carries calls out on an archive that stands already, and answers how many: as many as
/// there are places for replies.
pub fn carry_on<S: BlockStore, Q: Summary<Reading = S::Reading>>(
    table: &mut NodeTable<'_, Q>,
    versions: &mut [Version],
    store: &mut S,
    readings: &[S::Reading],
    calls: &[Call],
    out: &mut [S::Reading],
    replies: &mut [Reply<S::Reading, Q>],
) -> usize
    ensures done { result ≡ min (length calls.now) (length replies.old) }
    ensures rest { drop result replies.new ≡ drop result replies.old }
    ensures carried { CarriedOn Q.Summary.means S.BlockStore
        readings.now (take result calls.now) (take result replies.new)
        (archive_of table.old versions.old store.old) out.old
        (archive_of table.new versions.new store.new) out.new }
    ensures same_slice { table.new.nodes.ghost_name ≡ table.old.nodes.ghost_name }
{
    let count = calls.len().min(replies.len());
    // No `zip` with the calls: the check then knows nothing of the replies that were written.
    for (i, reply) in replies[..count].iter_mut().enumerate() {
        *reply = carry_one(table, versions, store, readings, calls[i], out);
    }
    count
}

/// Begins an archive in the caller's tables, carries the calls out on it in their order, and writes the reply to each: as many calls as there are places
/// for replies. A call's row stands in `readings`, a span goes to `out`.
pub fn carry_out<S: BlockStore, Q: Summary<Reading = S::Reading>>(
    nodes: &mut [Node<Q>],
    versions: &mut [Version],
    store: &mut S,
    readings: &[S::Reading],
    calls: &[Call],
    out: &mut [S::Reading],
    replies: &mut [Reply<S::Reading, Q>],
) -> Ran
    ensures carried { Carried Q.Summary.means S.BlockStore nodes.old versions.old store.old
        readings.now calls.now out.old replies.old result
        nodes.new versions.new store.new out.new replies.new }
{
    let mut table = NodeTable::begin(nodes, versions);
    let done = carry_on(&mut table, versions, store, readings, calls, out, replies);
    Ran {
        done,
        used: table.used(),
        count: table.count(),
    }
}
