// A block taken out of a tree.
ghost use Rattle.std.specs.Prelude.{◌≡◌, nat_lt};
ghost use Rattle.nodes.specs.Holding.{WritesFreeOnly, Bounds};
ghost use Rattle.nodes.specs.Removing.{Led, Merged, Removed};

use crate::makers::{write_fork, write_leaf};
use crate::node::{Block, Node, Shape};
use crate::table::{blocks_in, kept_block, view};
use crate::walks::Built;
use summary::Summary;

// Writes the tree with the block given for its leader.
fn lead_by<Q: Summary>(nodes: &mut [Node<Q>], used: u32, at: u32, block: &Block<Q>) -> Built
    ensures free_only { WritesFreeOnly nodes.old used nodes.new result.used }
    ensures bounds { Bounds nodes.old used at result.root result.used }
    ensures led { Led Q.Summary.means nodes.old used at block.now nodes.new result.root result.used }
{
    let Some(shape) = view(nodes, at) else {
        return Built { root: at, used };
    };
    match shape {
        Shape::Leaf { after, .. } => write_leaf(nodes, used, block, after),
        Shape::Fork {
            level,
            below,
            after,
        } => {
            let part = lead_by(nodes, used, below, block);
            write_fork(nodes, part.used, level, part.root, after)
        }
    }
}

// Of two forks that are merged, does the second's stand over the first's? At equal levels the first's does.
fn second_over(first: u8, second: u8) -> bool
    ensures { result ≡ nat_lt first second }
{
    first < second
}

// Writes the first tree, then the second without its leader; where the second has no more than its leader, the first is kept.
fn merge<Q: Summary>(nodes: &mut [Node<Q>], used: u32, first: u32, second: u32) -> Built
    ensures free_only { WritesFreeOnly nodes.old used nodes.new result.used }
    ensures bounds { Bounds nodes.old used first result.root result.used }
    ensures merged { Merged Q.Summary.means nodes.old used first second nodes.new result.root result.used }
{
    let Some(one) = view(nodes, first) else {
        return Built { root: first, used };
    };
    let Some(two) = view(nodes, second) else {
        return Built { root: first, used };
    };
    match two {
        Shape::Leaf { after: None, .. } => Built { root: first, used },
        Shape::Leaf {
            after: Some(rest),
            ..
        } => match one {
            Shape::Leaf {
                block: number,
                length,
                after: None,
            } => {
                let kept = kept_block(nodes, first, number, length);
                write_leaf(nodes, used, &kept, Some(rest))
            }
            Shape::Leaf {
                block: number,
                length,
                after: Some(after),
            } => {
                let kept = kept_block(nodes, first, number, length);
                let part = merge(nodes, used, after, second);
                write_leaf(nodes, part.used, &kept, Some(part.root))
            }
            Shape::Fork {
                level,
                below,
                after,
            } => {
                let part = merge(nodes, used, after, second);
                write_fork(nodes, part.used, level, below, part.root)
            }
        },
        Shape::Fork {
            level: high,
            below: low,
            after: rest,
        } => match one {
            Shape::Leaf { .. } => {
                let part = merge(nodes, used, first, low);
                write_fork(nodes, part.used, high, part.root, rest)
            }
            Shape::Fork {
                level,
                below,
                after,
            } => {
                if second_over(level, high) {
                    let part = merge(nodes, used, first, low);
                    return write_fork(nodes, part.used, high, part.root, rest);
                }
                let part = merge(nodes, used, after, second);
                write_fork(nodes, part.used, level, below, part.root)
            }
        },
    }
}

// Writes the tree without the block that `upto` blocks lead to.
pub(crate) fn remove<Q: Summary>(nodes: &mut [Node<Q>], used: u32, at: u32, upto: u32) -> Built
    ensures free_only { WritesFreeOnly nodes.old used nodes.new result.used }
    ensures bounds { Bounds nodes.old used at result.root result.used }
    ensures removed { Removed Q.Summary.means nodes.old used at upto nodes.new result.root result.used }
{
    let Some(shape) = view(nodes, at) else {
        return Built { root: at, used };
    };
    match shape {
        Shape::Leaf { after: None, .. } => Built { root: at, used },
        Shape::Leaf {
            block: number,
            length,
            after: Some(after),
        } => {
            let kept = kept_block(nodes, at, number, length);
            let own = length.min(1);
            if upto <= own + 1 {
                return lead_by(nodes, used, after, &kept);
            }
            let rest = remove(nodes, used, after, upto - own);
            write_leaf(nodes, rest.used, &kept, Some(rest.root))
        }
        Shape::Fork {
            level,
            below,
            after,
        } => {
            let count = blocks_in(nodes, below);
            if upto <= count {
                let part = remove(nodes, used, below, upto);
                return write_fork(nodes, part.used, level, part.root, after);
            }
            if upto - count == 1 {
                return merge(nodes, used, below, after);
            }
            let part = remove(nodes, used, after, upto - count);
            write_fork(nodes, part.used, level, below, part.root)
        }
    }
}
