// The tables of one timed call.
ghost use Rattle.std.specs.Prelude.{◌≡◌, length, IfOk};
ghost use Rattle.bench_calls.specs.Timed.{TimedOver, Timed};

use crate::digests::{counts_mixed, load_number, mixed};
use crate::rounds::carry_rounds;
use archive::Version;
use journal::{Loaded, load};
use nodes::Node;
use reading::Count;
use runs::{Call, Reply};
use std::alloc::{AllocError, Global};
use store::{BlockStore, RowStore};
use summary::Peak;

// Loads a journal into tables, a store and a row area, and carries rounds of calls out.
fn timed_over<S: BlockStore<Reading = Count> + Drop>(
    journal: &[u8],
    calls: &[Call],
    rounds: u32,
    nodes: &mut [Node<Peak<Count>>],
    versions: &mut [Version],
    mut store: S,
    area: &mut [Count],
    out: &mut [Count],
    replies: &mut [Reply<Count, Peak<Count>>],
) -> u64
    requires { length replies.old ≡ length calls.now }
    ensures { TimedOver S.BlockStore nodes.old versions.old store area.old out.old journal.now
        calls.now rounds result }
{
    let Loaded { mut table, answer } = load(journal, nodes, versions, &mut store, area);
    let sum = carry_rounds(
        &mut table, versions, &mut store, area, calls, rounds, out, replies,
    );
    counts_mixed(mixed(sum, load_number(answer)), out)
}

// Loads a journal into tables that are made for it, and carries rounds of calls out.
pub(crate) fn timed(
    heap: Global,
    journal: &[u8],
    calls: &[Call],
    rounds: u32,
) -> Result<u64, AllocError>
    ensures { IfOk result (λ told. Timed journal.now calls.now rounds told) }
{
    let mut replies = Vec::from_elem(heap, Reply::Spanned(Ok(0)), calls.len())?;
    let mut nodes = [Node::<Peak<Count>>::lead(); 16_384];
    let mut versions = [Version::default(); 1024];
    let mut area = [Count { value: 0 }; 1024];
    let mut out = [Count { value: 0 }; 4096];
    let mut rows = [Count { value: 0 }; 8192];
    Ok(timed_over(
        journal,
        calls,
        rounds,
        &mut nodes,
        &mut versions,
        RowStore::new(&mut rows),
        &mut area,
        &mut out,
        &mut replies,
    ))
}
