// How many nodes lead to a block, and how many to it and to its left neighbour.
ghost use Rattle.std.specs.Prelude.{◌≡◌, ◌+◌, ◌%◌, ◌^◌};
ghost use Rattle.questions.specs.Paths.{PathCounted, PathsFirst, PathsCounted};

use nodes::{Node, Shape, blocks_in, view_at};
use summary::Summary;

// One node more on a path.
pub(crate) fn one_more(count: u32) -> u32
    ensures { result ≡ (count + 1) % 2 ^ 32 }
{
    count.wrapping_add(1)
}

// The nodes of two paths that part at a fork, with those up to the fork.
fn with_both(count: u32, first: u32, second: u32) -> u32
    ensures { result ≡ (count + first + second) % 2 ^ 32 }
{
    count.wrapping_add(first).wrapping_add(second)
}

// Goes to the block that `upto` blocks lead to, and counts the nodes on the way.
pub(crate) fn path_walk<Q: Summary>(nodes: &[Node<Q>], at: u32, upto: u32) -> Option<u32>
    ensures { PathCounted Q.Summary.means nodes.now at upto result }
{
    let mut here = at;
    let mut rest = upto;
    let mut count = 0;
    loop {
        let shape = view_at(nodes, here)?;
        count = one_more(count);
        match shape {
            Shape::Leaf { after: None, .. } => return Some(count),
            Shape::Leaf {
                length,
                after: Some(after),
                ..
            } => {
                let own = length.min(1);
                if rest <= own {
                    return Some(count);
                }
                here = after;
                rest -= own;
            }
            Shape::Fork { below, after, .. } => {
                let left = blocks_in(nodes, below);
                if rest <= left {
                    here = below;
                } else {
                    here = after;
                    rest -= left;
                }
            }
        }
    }
}

// Goes to the block that `upto` blocks lead to and to the one before it, and counts the nodes on the way once; nowhere where no block is before it.
pub(crate) fn paths_walk<Q: Summary>(nodes: &[Node<Q>], at: u32, upto: u32) -> Option<u32>
    ensures first { PathsFirst Q.Summary.means nodes.now at upto result }
    ensures counted { PathsCounted Q.Summary.means nodes.now at upto result }
{
    let mut here = at;
    let mut rest = upto;
    let mut count = 0;
    loop {
        let shape = view_at(nodes, here)?;
        count = one_more(count);
        match shape {
            Shape::Leaf { after: None, .. } => return None,
            Shape::Leaf {
                length,
                after: Some(after),
                ..
            } => {
                let own = length.min(1);
                if rest <= own {
                    return None;
                }
                if rest <= own + 1 {
                    let next = path_walk(nodes, after, 1)?;
                    return Some(count.wrapping_add(next));
                }
                here = after;
                rest -= own;
            }
            Shape::Fork { below, after, .. } => {
                let left = blocks_in(nodes, below);
                if rest <= left {
                    here = below;
                } else {
                    if rest - left == 1 {
                        let first = path_walk(nodes, below, left)?;
                        let second = path_walk(nodes, after, 1)?;
                        return Some(with_both(count, first, second));
                    }
                    here = after;
                    rest -= left;
                }
            }
        }
    }
}
