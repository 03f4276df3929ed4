//! The questions that one version's tree answers, by walks over the table that write nothing but a span's output. Every walk ends on any table.
//! A walk takes time in proportion to the paths that it goes; beside that, `span` reads what it copies, and `summary` the rows that its
//! span cuts, two at most.
//! A question looks first at what the node at its entry counts: past that there is nothing, and no walk is begun. So what is answered there, and what
//! an output keeps, is said of any table; what else is answered, of every tree that the table holds at the entry.
#![tactic(auto)]

ghost use Rattle.std.specs.Prelude.{◌≡◌, ◌<◌, ◌≤◌, None};
ghost use Rattle.std.specs.List.{slice_get};
ghost use Rattle.nodes.specs.Views.{blocks_in, readings_in};
ghost use Rattle.questions.specs.Finding.{Reads};
ghost use Rattle.questions.specs.Paths.{PathCounted, PathAbsent, PathsCounted, PathsAbsent};
ghost use Rattle.questions.specs.Spans.{OutputStays, Spanned};
ghost use Rattle.questions.specs.Sums.{Summed};

use finding::find;
use nodes::{Node, entry, readings_in};
use store::BlockStore;
use summary::Summary;

mod counting;
mod finding;
mod found;
mod spanning;
mod summing;

pub use found::Answer;

/// How many nodes are on the path to the block that `upto` blocks lead to; none where there is no such block.
pub fn path<Q: Summary>(nodes: &[Node<Q>], at: u32, upto: u32) -> Option<u32>
    ensures none { slice_get nodes.now at ≡ None → result ≡ None }
    ensures past { blocks_in (slice_get nodes.now at) < upto → result ≡ None }
    ensures absent { PathAbsent Q.Summary.means nodes.now at upto result }
    ensures counted { PathCounted Q.Summary.means nodes.now at upto result }
{
    let root = entry(nodes, at)?;
    if root.blocks < upto {
        return None;
    }
    counting::path_walk(nodes, at, upto)
}

/// How many nodes are on the paths to the block that `upto` blocks lead to and to the one before it, each counted once; none where there are not both.
pub fn paths<Q: Summary>(nodes: &[Node<Q>], at: u32, upto: u32) -> Option<u32>
    ensures none { slice_get nodes.now at ≡ None → result ≡ None }
    ensures past { blocks_in (slice_get nodes.now at) < upto → result ≡ None }
    ensures absent { PathsAbsent Q.Summary.means nodes.now at upto result }
    ensures counted { PathsCounted Q.Summary.means nodes.now at upto result }
{
    let root = entry(nodes, at)?;
    if root.blocks < upto {
        return None;
    }
    counting::paths_walk(nodes, at, upto)
}

/// What was read at a position, with how many nodes lead to the block that has it; none past the end.
pub fn reading<S: BlockStore, Q: Summary<Reading = S::Reading>>(
    nodes: &[Node<Q>],
    store: &S,
    at: u32,
    position: u32,
) -> Option<Answer<S::Reading>>
    ensures past { readings_in (slice_get nodes.now at) ≤ position → result ≡ None }
    ensures read { Reads Q.Summary.means (S.BlockStore.rows store.now) nodes.now at position result }
{
    if readings_in(nodes, at) <= position {
        return None;
    }
    let found = find(nodes, at, position)?;
    let reading = store.reading(found.block, found.place)?;
    Some(Answer {
        reading,
        path: found.path,
    })
}

/// Writes the readings a to b − 1 to the output's start; the rest of the output stays, and all of it where there are not so many, or no room.
pub fn span<S: BlockStore, Q: Summary<Reading = S::Reading>>(
    nodes: &[Node<Q>],
    store: &S,
    at: u32,
    a: u32,
    b: u32,
    out: &mut [S::Reading],
)
    ensures any { OutputStays nodes.now at a b out.old out.new }
    ensures spanned { Spanned Q.Summary.means (S.BlockStore.rows store.now) nodes.now at a b out.old out.new }
{
    let n = b.saturating_sub(a) as usize;
    if b < a || readings_in(nodes, at) < b || out.len() < n {
        return;
    }
    let part = &mut out[..n];
    spanning::span_walk(nodes, store, at, a, b, part, 0)
}

/// The summary of the readings a to b − 1, as far as there are such.
pub fn summary<S: BlockStore, Q: Summary<Reading = S::Reading>>(
    nodes: &[Node<Q>],
    store: &S,
    at: u32,
    a: u32,
    b: u32,
) -> Q
    ensures turned { b ≤ a → result ≡ Q.Summary.means.none }
    ensures past { readings_in (slice_get nodes.now at) ≤ a → result ≡ Q.Summary.means.none }
    ensures summed { Summed Q.Summary.means (S.BlockStore.rows store.now) nodes.now at a b result }
{
    let end = b.min(readings_in(nodes, at));
    if end <= a {
        return Q::nothing();
    }
    summing::sum_walk(nodes, store, at, a, end)
}
