// Rounds of the same calls on an archive.
// `same_slice`: that the table stays the caller's slice speaks of two values, so that no invariant of its type can say it.
ghost use Rattle.std.specs.Prelude.{◌≡◌, length};
ghost use Rattle.archive.specs.Calling.{archive_of};
ghost use Rattle.bench_calls.specs.Timed.{Rounds};

use crate::digests::replies_mixed;
use archive::{NodeTable, Version};
use reading::Count;
use runs::{Call, Reply, carry_on};
use store::BlockStore;
use summary::Peak;

// Carries the calls out round after round, and tells one number of all replies.
pub(crate) fn carry_rounds<S: BlockStore<Reading = Count>>(
    table: &mut NodeTable<'_, Peak<Count>>,
    versions: &mut [Version],
    store: &mut S,
    readings: &[Count],
    calls: &[Call],
    rounds: u32,
    out: &mut [Count],
    replies: &mut [Reply<Count, Peak<Count>>],
) -> u64
    requires { length replies.old ≡ length calls.now }
    ensures told { Rounds S.BlockStore readings.now calls.now
        (archive_of table.old versions.old store.old) out.old rounds result
        (archive_of table.new versions.new store.new) out.new }
    ensures same_slice { table.new.nodes.ghost_name ≡ table.old.nodes.ghost_name }
{
    let mut sum = 0;
    for _ in 0..rounds {
        carry_on(table, versions, store, readings, calls, out, replies);
        sum = replies_mixed(sum, replies);
    }
    sum
}
