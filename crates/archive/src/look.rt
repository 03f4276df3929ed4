// The look before an edit: every refusal but the store's, with nothing changed.
ghost use Rattle.std.specs.Prelude.{◌≡◌, ◌+◌, ◌<◌, ◌≤◌, min, length, IfOk, OnOk, nat_le};
ghost use Rattle.std.specs.Result.{result_err};
ghost use Rattle.archive.specs.Stands.{tables_of};
ghost use Rattle.archive.specs.Looking.{in_use, Looked, LookBy};
ghost use Rattle.archive.specs.Refusals.{early_fault, insert_early, change_early, insert_refusal, change_refusal, removal_refusal};

use crate::fault::EditFault;
use crate::version::Version;
use nodes::{CAPACITY, Node};
use questions::{path, paths};
use summary::Summary;

// The most nodes that a path has: a version of 500 blocks has a FlexList of 501 leaves, and no path is longer.
const PATH: u64 = 501;

/// The most versions that an archive uses of its table; of the nodes it uses at most `CAPACITY`.
pub const VERSIONS: usize = 4_096;

// The record of a version in use. Versions and their count stay two parameters, like the nodes and theirs: the table hands its slices to functions, by
// the project's rule.
pub(crate) fn version_at(versions: &[Version], count: u32, version: u32) -> Option<Version>
    ensures { result ≡ in_use versions.now count version }
{
    if version < count {
        versions.get(version as usize).copied()
    } else {
        None
    }
}

// What is tried after version and place, before any node is read.
pub(crate) fn early_fault(level: u8, len: usize, crowded: bool, full: bool) -> Result<(), EditFault>
    ensures { result_err result ≡ early_fault level len crowded full }
{
    if level > 15 {
        return Err(EditFault::Level);
    }
    if len < 1 || len > 1024 {
        return Err(EditFault::RowLength);
    }
    if crowded {
        return Err(EditFault::Blocks);
    }
    if full {
        return Err(EditFault::Versions);
    }
    Ok(())
}

// Are so many nodes free, of those that an archive uses? Also no where more are in use than it may use: that is no archive's table.
pub(crate) fn has_free(len: usize, used: u32, need: u64) -> bool
    ensures { result ≡ nat_le (used + need) (min 60000 len) }
{
    u64::from(used).saturating_add(need) <= len.min(CAPACITY) as u64
}

// Is the table of versions full?
pub(crate) fn is_full(len: usize, count: u32) -> bool
    ensures { result ≡ nat_le (min 4096 len) count }
{
    len.min(VERSIONS) <= count as usize
}

// A path is counted where fewer nodes are free than the longest may need: mostly that is known without.
// Three looks and not one: each has its own order of places and paths, and an edit without a level or a row has none to try.
pub(crate) fn look_insert<Q: Summary>(
    nodes: &[Node<Q>],
    used: u32,
    versions: &[Version],
    count: u32,
    base: u32,
    place: u32,
    level: u8,
    len: usize,
) -> Result<Version, EditFault>
    ensures looked { Looked Q.Summary.means (tables_of nodes.now used versions.now count)
        (λ t es. insert_refusal t es base place level len) base result }
    ensures ends { let full = nat_le (min 4096 (length versions.now)) count in
        LookBy (insert_early full place level len) (in_use versions.now count base) result }
    ensures sized { OnOk result ((1 ≤ len) × (len ≤ 1024)) }
    ensures room { OnOk result ((count < length versions.now) × (count < 4096)) }
    ensures free { OnOk result (used ≤ min 60000 (length nodes.now)) }
{
    let from = version_at(versions, count, base).ok_or(EditFault::Version)?;
    if from.blocks < place {
        return Err(EditFault::Place);
    }
    let crowded = from.blocks >= 500;
    early_fault(level, len, crowded, is_full(versions.len(), count))?;
    let ample = has_free(nodes.len(), used, PATH + 2);
    if ample {
        return Ok(from);
    }
    let way = path(nodes, from.root, place).ok_or(EditFault::Version)?;
    if !has_free(nodes.len(), used, u64::from(way) + 2) {
        return Err(EditFault::Nodes);
    }
    Ok(from)
}

pub(crate) fn look_change<Q: Summary>(
    nodes: &[Node<Q>],
    used: u32,
    versions: &[Version],
    count: u32,
    base: u32,
    place: u32,
    len: usize,
) -> Result<Version, EditFault>
    ensures looked { Looked Q.Summary.means (tables_of nodes.now used versions.now count)
        (λ t es. change_refusal t es base place len) base result }
    ensures ends { let full = nat_le (min 4096 (length versions.now)) count in
        LookBy (change_early full place len) (in_use versions.now count base) result }
    ensures sized { OnOk result ((1 ≤ len) × (len ≤ 1024)) }
    ensures placed { IfOk result (λ from. place < from.blocks) }
    ensures room { OnOk result ((count < length versions.now) × (count < 4096)) }
    ensures free { OnOk result (used ≤ min 60000 (length nodes.now)) }
{
    let from = version_at(versions, count, base).ok_or(EditFault::Version)?;
    if from.blocks <= place {
        return Err(EditFault::Place);
    }
    early_fault(0, len, false, is_full(versions.len(), count))?;
    let ample = has_free(nodes.len(), used, PATH);
    if ample {
        return Ok(from);
    }
    let way = path(nodes, from.root, place + 1).ok_or(EditFault::Version)?;
    if !has_free(nodes.len(), used, u64::from(way)) {
        return Err(EditFault::Nodes);
    }
    Ok(from)
}

pub(crate) fn look_removal<Q: Summary>(
    nodes: &[Node<Q>],
    used: u32,
    versions: &[Version],
    count: u32,
    base: u32,
    place: u32,
) -> Result<Version, EditFault>
    ensures looked { Looked Q.Summary.means (tables_of nodes.now used versions.now count)
        (λ t es. removal_refusal t es base place) base result }
    ensures ends { let full = nat_le (min 4096 (length versions.now)) count in
        LookBy (change_early full place 1) (in_use versions.now count base) result }
    ensures placed { IfOk result (λ from. place < from.blocks) }
    ensures room { OnOk result ((count < length versions.now) × (count < 4096)) }
    ensures free { OnOk result (used ≤ min 60000 (length nodes.now)) }
{
    let from = version_at(versions, count, base).ok_or(EditFault::Version)?;
    if from.blocks <= place {
        return Err(EditFault::Place);
    }
    early_fault(0, 1, false, is_full(versions.len(), count))?;
    let ample = has_free(nodes.len(), used, 2 * PATH - 1);
    if ample {
        return Ok(from);
    }
    let ways = paths(nodes, from.root, place + 1).ok_or(EditFault::Version)?;
    if !has_free(nodes.len(), used, u64::from(ways).saturating_sub(1)) {
        return Err(EditFault::Nodes);
    }
    Ok(from)
}
