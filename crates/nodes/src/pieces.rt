// The pieces of a tree that is cut after a place.
ghost use Rattle.std.specs.Prelude.{◌≡◌, ◌==◌};
ghost use Rattle.nodes.specs.Holding.{WritesFreeOnly, Bounds};
ghost use Rattle.nodes.specs.Cutting.{LeftMade, RightMade};

use crate::makers::{write_fork, write_leaf};
use crate::node::{Block, Node, Shape};
use crate::table::{blocks_in, kept_block, view};
use crate::walks::Built;
use summary::Summary;

// Does a piece of so many blocks end just at the cut? It is then kept.
fn ends_at_cut(blocks: u32, upto: u32) -> bool
    ensures { result ≡ (blocks == upto) }
{
    blocks == upto
}

// Writes the tree up to the block that `upto` blocks lead to; what ends just there is kept.
pub(crate) fn left<Q: Summary>(nodes: &mut [Node<Q>], used: u32, at: u32, upto: u32) -> Built
    ensures free_only { WritesFreeOnly nodes.old used nodes.new result.used }
    ensures bounds { Bounds nodes.old used at result.root result.used }
    ensures made { LeftMade Q.Summary.means nodes.old used at upto nodes.new result.root result.used }
{
    if ends_at_cut(blocks_in(nodes, at), upto) {
        return Built { root: at, used };
    }
    let Some(shape) = view(nodes, at) else {
        return Built { root: at, used };
    };
    match shape {
        Shape::Leaf { after: None, .. } => Built { root: at, used },
        Shape::Leaf {
            block: number,
            length,
            after: Some(after),
        } => {
            let kept = kept_block(nodes, at, number, length);
            let own = length.min(1);
            if upto <= own {
                return write_leaf(nodes, used, &kept, None);
            }
            let rest = left(nodes, used, after, upto - own);
            write_leaf(nodes, rest.used, &kept, Some(rest.root))
        }
        Shape::Fork {
            level,
            below,
            after,
        } => {
            let count = blocks_in(nodes, below);
            if upto <= count {
                return left(nodes, used, below, upto);
            }
            let part = left(nodes, used, after, upto - count);
            write_fork(nodes, part.used, level, below, part.root)
        }
    }
}

// Writes what stands after the block that `upto` blocks lead to, led by the block given.
pub(crate) fn right<Q: Summary>(
    nodes: &mut [Node<Q>],
    used: u32,
    at: u32,
    upto: u32,
    block: &Block<Q>,
) -> Built
    ensures free_only { WritesFreeOnly nodes.old used nodes.new result.used }
    ensures bounds { Bounds nodes.old used at result.root result.used }
    ensures made { RightMade Q.Summary.means nodes.old used at upto block.now nodes.new result.root result.used }
{
    let Some(shape) = view(nodes, at) else {
        return Built { root: at, used };
    };
    match shape {
        Shape::Leaf { after: None, .. } => write_leaf(nodes, used, block, None),
        Shape::Leaf {
            length,
            after: Some(after),
            ..
        } => {
            let own = length.min(1);
            if upto <= own {
                return write_leaf(nodes, used, block, Some(after));
            }
            right(nodes, used, after, upto - own, block)
        }
        Shape::Fork {
            level,
            below,
            after,
        } => {
            let count = blocks_in(nodes, below);
            if upto <= count {
                let part = right(nodes, used, below, upto, block);
                return write_fork(nodes, part.used, level, part.root, after);
            }
            right(nodes, used, after, upto - count, block)
        }
    }
}
