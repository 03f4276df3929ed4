// The edits of a tree in the table, each laid into the next free entries; places are given by how many blocks stand up to them.
// The slice and its next free entry stay two parameters: the archive's table hands its slice to functions, and that form is the project's rule.
// An edit looks first whether the node at its entry counts so many blocks: where it does not, there is no such place, and nothing is written. What it
// leaves and answers is said of any table; which nodes it writes, of every tree that the table holds at the entry.
ghost use Rattle.std.specs.Prelude.{◌≡◌, ◌<◌, ◌≤◌, min, nat_le};
ghost use Rattle.nodes.specs.Holding.{WritesFreeOnly, AsItWas, capacity};
ghost use Rattle.nodes.specs.Walking.{AnyTable};
ghost use Rattle.nodes.specs.Changing.{Changed};
ghost use Rattle.nodes.specs.Cutting.{Inserted};
ghost use Rattle.nodes.specs.Removing.{Removed};

use crate::change::change;
use crate::insert::insert;
use crate::node::{Block, Node};
use crate::remove::remove;
use crate::table::{CAPACITY, blocks_in, view};
use crate::walks::Built;
use summary::Summary;

// Is no entry free, in a table of so many?
fn is_full(len: usize, used: u32) -> bool
    ensures { result ≡ nat_le (min 60000 len) used }
{
    len.min(CAPACITY) <= used as usize
}

/// Writes the tree at an entry with the block given in place of the one that `upto` blocks lead to.
pub fn write_change<Q: Summary>(
    nodes: &mut [Node<Q>],
    used: u32,
    at: u32,
    upto: u32,
    block: Block<Q>,
) -> Built
    ensures free_only { WritesFreeOnly nodes.old used nodes.new result.used }
    ensures any { AnyTable nodes.old used at upto nodes.new result.root result.used }
    ensures none { upto ≡ 0 → AsItWas nodes.old used at nodes.new result.root result.used }
    ensures full { capacity nodes.old ≤ used → AsItWas nodes.old used at nodes.new result.root result.used }
    ensures changed { 0 < upto →
        Changed Q.Summary.means nodes.old used at upto block nodes.new result.root result.used }
{
    if is_full(nodes.len(), used) {
        return Built { root: at, used };
    }
    if view(nodes, at).is_none() {
        return Built { root: at, used };
    }
    if upto == 0 || blocks_in(nodes, at) < upto {
        return Built { root: at, used };
    }
    change(nodes, used, at, upto, &block)
}

/// Writes the tree at an entry with the block given, of the level given, after the one that `upto` blocks lead to.
pub fn write_insert<Q: Summary>(
    nodes: &mut [Node<Q>],
    used: u32,
    at: u32,
    upto: u32,
    level: u8,
    block: Block<Q>,
) -> Built
    ensures free_only { WritesFreeOnly nodes.old used nodes.new result.used }
    ensures any { AnyTable nodes.old used at upto nodes.new result.root result.used }
    ensures full { capacity nodes.old ≤ used → AsItWas nodes.old used at nodes.new result.root result.used }
    ensures inserted { Inserted Q.Summary.means nodes.old used at upto block
        nodes.new result.root result.used level }
{
    if is_full(nodes.len(), used) {
        return Built { root: at, used };
    }
    if view(nodes, at).is_none() {
        return Built { root: at, used };
    }
    if blocks_in(nodes, at) < upto {
        return Built { root: at, used };
    }
    insert(nodes, used, at, upto, level, &block)
}

/// Writes the tree at an entry without the block that `upto` blocks lead to.
pub fn write_removal<Q: Summary>(nodes: &mut [Node<Q>], used: u32, at: u32, upto: u32) -> Built
    ensures free_only { WritesFreeOnly nodes.old used nodes.new result.used }
    ensures any { AnyTable nodes.old used at upto nodes.new result.root result.used }
    ensures none { upto ≡ 0 → AsItWas nodes.old used at nodes.new result.root result.used }
    ensures removed { 0 < upto →
        Removed Q.Summary.means nodes.old used at upto nodes.new result.root result.used }
{
    if view(nodes, at).is_none() {
        return Built { root: at, used };
    }
    if upto == 0 || blocks_in(nodes, at) < upto {
        return Built { root: at, used };
    }
    remove(nodes, used, at, upto)
}
