// A block of a tree changed: its path is written anew.
ghost use Rattle.nodes.specs.Holding.{WritesFreeOnly, Bounds};
ghost use Rattle.nodes.specs.Changing.{Changed};

use crate::makers::{write_fork, write_leaf};
use crate::node::{Block, Node, Shape};
use crate::table::{blocks_in, kept_block, view};
use crate::walks::Built;
use summary::Summary;

// Writes the path to the block that `upto` blocks lead to, with the block given in its place.
pub(crate) fn change<Q: Summary>(
    nodes: &mut [Node<Q>],
    used: u32,
    at: u32,
    upto: u32,
    block: &Block<Q>,
) -> Built
    ensures free_only { WritesFreeOnly nodes.old used nodes.new result.used }
    ensures bounds { Bounds nodes.old used at result.root result.used }
    ensures changed { Changed Q.Summary.means nodes.old used at upto block.now nodes.new result.root result.used }
{
    let Some(shape) = view(nodes, at) else {
        return Built { root: at, used };
    };
    match shape {
        Shape::Leaf { after: None, .. } => write_leaf(nodes, used, block, None),
        Shape::Leaf {
            block: number,
            length,
            after: Some(after),
        } => {
            let own = length.min(1);
            if upto <= own {
                return write_leaf(nodes, used, block, Some(after));
            }
            let kept = kept_block(nodes, at, number, length);
            let rest = change(nodes, used, after, upto - own, block);
            write_leaf(nodes, rest.used, &kept, Some(rest.root))
        }
        Shape::Fork {
            level,
            below,
            after,
        } => {
            let left = blocks_in(nodes, below);
            if upto <= left {
                let part = change(nodes, used, below, upto, block);
                return write_fork(nodes, part.used, level, part.root, after);
            }
            let part = change(nodes, used, after, upto - left, block);
            write_fork(nodes, part.used, level, below, part.root)
        }
    }
}
