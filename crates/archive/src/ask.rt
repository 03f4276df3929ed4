// The questions over the caller's slices: one reading of a version, a span of its readings, the summary of a span. Nothing is changed but the
// output of a span.
ghost use Rattle.std.specs.Prelude.{◌≡◌, ◌-◌, None, Err, length};
ghost use Rattle.archive.specs.declared.fault.ReadFault.TheVariants as unread;
ghost use Rattle.archive.specs.Asking.{outside, answer_by, position_refusal, stretch_refusal, output_refusal, ReadingEnds, SummaryEnds, ReadingLaw, SpanLaw, SpanLeft, SummaryLaw};
ghost use Rattle.archive.specs.Looking.{in_use};

use crate::fault::ReadFault;
use crate::look::version_at;
use crate::version::Version;
use nodes::Node;
use questions::Answer;
use store::BlockStore;
use summary::Summary;

// Does the stretch from a to b − 1 turn round, or pass the end of so many readings? Two numbers and no range: one that is turned round is part of the
// promise, and is refused.
pub(crate) fn outside(readings: u32, a: u32, b: u32) -> bool
    ensures { result ≡ outside readings a b }
{
    b < a || readings < b
}

// What was read at a position of a version, and how many nodes lead to the block that has it.
pub(crate) fn reading_in<S: BlockStore, Q: Summary<Reading = S::Reading>>(
    nodes: &[Node<Q>],
    versions: &[Version],
    count: u32,
    store: &S,
    version: u32,
    position: u32,
) -> Result<Answer<S::Reading>, ReadFault>
    ensures ends { ReadingEnds (position_refusal position (in_use versions.now count version))
        result }
    ensures none { count ≡ 0 → result ≡ Err unread.Version }
    ensures law { ReadingLaw Q.Summary.means S.BlockStore.rows nodes.now versions.now count
        store.now version position result }
{
    let from = version_at(versions, count, version).ok_or(ReadFault::Version)?;
    if from.readings <= position {
        return Err(ReadFault::Position);
    }
    questions::reading(nodes, store, from.root, position).ok_or(ReadFault::Version)
}

// Copies what a version has from position a on, up to b and without it, to the output's start, and answers how many readings that are. Further places
// of the output keep what they had.
pub(crate) fn span_in<S: BlockStore, Q: Summary<Reading = S::Reading>>(
    nodes: &[Node<Q>],
    versions: &[Version],
    count: u32,
    store: &S,
    version: u32,
    a: u32,
    b: u32,
    out: &mut [S::Reading],
) -> Result<u32, ReadFault>
    ensures ends { let short = output_refusal a b (length out.old) in
        result ≡ answer_by (stretch_refusal a b (in_use versions.now count version) short) (b - a) }
    ensures none { count ≡ 0 → result ≡ Err unread.Version }
    ensures left { SpanLeft a b out.old result out.new }
    ensures law { SpanLaw Q.Summary.means S.BlockStore.rows nodes.now versions.now count store.now
        version a b out.old result out.new }
{
    let from = version_at(versions, count, version).ok_or(ReadFault::Version)?;
    if outside(from.readings, a, b) {
        return Err(ReadFault::Position);
    }
    let n = b - a;
    if out.len() < n as usize {
        return Err(ReadFault::Output);
    }
    questions::span(nodes, store, from.root, a, b, &mut out[..n as usize]);
    Ok(n)
}

// The summary of the readings a to b − 1 of a version.
pub(crate) fn summary_in<S: BlockStore, Q: Summary<Reading = S::Reading>>(
    nodes: &[Node<Q>],
    versions: &[Version],
    count: u32,
    store: &S,
    version: u32,
    a: u32,
    b: u32,
) -> Result<Q, ReadFault>
    ensures ends { SummaryEnds (stretch_refusal a b (in_use versions.now count version) None)
        result }
    ensures none { count ≡ 0 → result ≡ Err unread.Version }
    ensures law { SummaryLaw Q.Summary.means S.BlockStore.rows nodes.now versions.now count
        store.now version a b result }
{
    let from = version_at(versions, count, version).ok_or(ReadFault::Version)?;
    if outside(from.readings, a, b) {
        return Err(ReadFault::Position);
    }
    Ok(questions::summary(nodes, store, from.root, a, b))
}
