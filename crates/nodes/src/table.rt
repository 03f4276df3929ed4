// Reading and writing single entries of a table of nodes. Every index is tested, so a walk is safe on any table.
ghost use Rattle.std.specs.Prelude.{◌≡◌, slice_set};
ghost use Rattle.std.specs.List.{slice_get};
ghost use Rattle.nodes.specs.Views.{parts_below, seen, blocks_in, readings_in, kept_in, Wrote};

use crate::node::{Block, Node, Shape};
use crate::walks::Built;
use summary::Summary;

/// The node at an entry.
pub fn entry<Q: Copy>(nodes: &[Node<Q>], at: u32) -> Option<Node<Q>>
    ensures { result ≡ slice_get nodes.now at }
{
    nodes.get(at as usize).copied()
}

// Do a shape's parts stand below the entry?
fn parts_below(at: u32, shape: Shape) -> bool
    ensures { result ≡ parts_below at shape }
{
    match shape {
        Shape::Leaf { after, .. } => after.is_none_or(|after| after < at),
        Shape::Fork { below, after, .. } => below < at && after < at,
    }
}

/// What a walk sees at an entry: nothing where the entry is not there or its parts do not stand below it.
pub fn view<Q: Copy>(nodes: &[Node<Q>], at: u32) -> Option<Shape>
    ensures { result ≡ seen at (slice_get nodes.now at) }
{
    let shape = entry(nodes, at)?.shape;
    parts_below(at, shape).then_some(shape)
}

/// How many blocks the node at an entry counts.
pub fn blocks_in<Q: Copy>(nodes: &[Node<Q>], at: u32) -> u32
    ensures { result ≡ blocks_in (slice_get nodes.now at) }
{
    entry(nodes, at).map_or(0, |node| node.blocks)
}

/// How many readings the node at an entry counts.
pub fn readings_in<Q: Copy>(nodes: &[Node<Q>], at: u32) -> u32
    ensures { result ≡ readings_in (slice_get nodes.now at) }
{
    entry(nodes, at).map_or(0, |node| node.readings)
}

/// The block of a leaf's entry, of the number and length that are seen there: the node keeps the summary of its row.
pub fn kept_block<Q: Summary>(nodes: &[Node<Q>], at: u32, number: u32, length: u32) -> Block<Q>
    ensures { result ≡ kept_in Q.Summary.means number length (slice_get nodes.now at) }
{
    let row = entry(nodes, at).map_or(Q::nothing(), |node| node.row);
    Block {
        number,
        length,
        row,
    }
}

/// Writes an entry of a slice, if the slice has it.
pub fn put<T: Copy>(entries: &mut [T], at: usize, entry: T)
    ensures { entries.new ≡ slice_set entries.old at entry }
{
    // Not by `get_mut`: after it a proof knows the slice's length, but none of its elements.
    if at < entries.len() {
        entries[at] = entry;
    }
}

/// The most entries of a table that are used.
pub const CAPACITY: usize = 60_000;

// Writes a node at the next free entry; where there is no room, nothing is written, and that entry stays the next.
pub(crate) fn write<Q: Copy>(nodes: &mut [Node<Q>], used: u32, node: Node<Q>) -> Built
    ensures root { result.root ≡ used }
    ensures wrote { Wrote nodes.old used node nodes.new result.used }
{
    let at = used as usize;
    if nodes.len().min(CAPACITY) <= at {
        return Built { root: used, used };
    }
    nodes[at] = node;
    Built {
        root: used,
        used: used + 1,
    }
}
