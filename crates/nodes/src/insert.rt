// A block put into a tree.
ghost use Rattle.std.specs.Prelude.{◌≡◌, nat_le, nat_lt};
ghost use Rattle.nodes.specs.Holding.{WritesFreeOnly, Bounds};
ghost use Rattle.nodes.specs.Cutting.{CutMade, Inserted};

use crate::makers::{write_fork, write_leaf};
use crate::node::{Block, Node, Shape};
use crate::pieces::{left, right};
use crate::table::{blocks_in, kept_block, view};
use crate::walks::Built;
use summary::Summary;

// Writes the tree cut after the block that `upto` blocks lead to, under a fork of the level given, the block given first after it.
fn cut<Q: Summary>(
    nodes: &mut [Node<Q>],
    used: u32,
    at: u32,
    upto: u32,
    level: u8,
    block: &Block<Q>,
) -> Built
    ensures free_only { WritesFreeOnly nodes.old used nodes.new result.used }
    ensures bounds { Bounds nodes.old used at result.root result.used }
    ensures made { CutMade Q.Summary.means nodes.old used at upto block.now nodes.new result.root result.used level }
{
    let first = left(nodes, used, at, upto);
    let second = right(nodes, first.used, at, upto, block);
    write_fork(nodes, second.used, level, first.root, second.root)
}

// Is a fork cut by a block put in before its second part? Also where the levels are equal: the new block is then the first.
fn cuts_before(level: u8, fork: u8) -> bool
    ensures { result ≡ nat_le fork level }
{
    fork <= level
}

// By a block put in past the first of its second part? Only where its level is the higher: at equal levels the fork's is the first.
fn cuts_after(level: u8, fork: u8) -> bool
    ensures { result ≡ nat_lt fork level }
{
    fork < level
}

// Writes the tree with the block given, of the level given, after the block that `upto` blocks lead to.
pub(crate) fn insert<Q: Summary>(
    nodes: &mut [Node<Q>],
    used: u32,
    at: u32,
    upto: u32,
    level: u8,
    block: &Block<Q>,
) -> Built
    ensures free_only { WritesFreeOnly nodes.old used nodes.new result.used }
    ensures bounds { Bounds nodes.old used at result.root result.used }
    ensures inserted { Inserted Q.Summary.means nodes.old used at upto block.now nodes.new result.root result.used level }
{
    let Some(shape) = view(nodes, at) else {
        return Built { root: at, used };
    };
    match shape {
        Shape::Leaf { .. } if level > 0 => cut(nodes, used, at, upto, level, block),
        Shape::Leaf {
            block: number,
            length,
            after: None,
        } => {
            let kept = kept_block(nodes, at, number, length);
            let leaf = write_leaf(nodes, used, block, None);
            write_leaf(nodes, leaf.used, &kept, Some(leaf.root))
        }
        Shape::Leaf {
            block: number,
            length,
            after: Some(after),
        } => {
            let kept = kept_block(nodes, at, number, length);
            let own = length.min(1);
            if upto <= own {
                let leaf = write_leaf(nodes, used, block, Some(after));
                return write_leaf(nodes, leaf.used, &kept, Some(leaf.root));
            }
            let rest = insert(nodes, used, after, upto - own, level, block);
            write_leaf(nodes, rest.used, &kept, Some(rest.root))
        }
        Shape::Fork {
            level: high,
            below,
            after,
        } => {
            let count = blocks_in(nodes, below);
            if upto <= count {
                if cuts_before(level, high) {
                    return cut(nodes, used, at, upto, level, block);
                }
                let part = insert(nodes, used, below, upto, level, block);
                return write_fork(nodes, part.used, high, part.root, after);
            }
            if cuts_after(level, high) {
                return cut(nodes, used, at, upto, level, block);
            }
            let part = insert(nodes, used, after, upto - count, level, block);
            write_fork(nodes, part.used, high, below, part.root)
        }
    }
}
