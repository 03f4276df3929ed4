// The block that has a reading, found by the counts of readings on the way.
ghost use Rattle.questions.specs.Finding.{Finds};

use crate::counting::one_more;
use crate::found::Found;
use nodes::{Node, Shape, readings_in, view_at};
use summary::Summary;

// Goes to the block that has the reading at a position, and counts the nodes on the way.
pub(crate) fn find<Q: Summary>(nodes: &[Node<Q>], at: u32, position: u32) -> Option<Found>
    ensures { Finds Q.Summary.means nodes.now at position result }
{
    let mut here = at;
    let mut place = position;
    let mut path = 0;
    loop {
        let shape = view_at(nodes, here)?;
        path = one_more(path);
        match shape {
            Shape::Leaf {
                block,
                length,
                after,
            } => {
                if place < length {
                    return Some(Found { block, place, path });
                }
                here = after?;
                place -= length;
            }
            Shape::Fork { below, after, .. } => {
                let left = readings_in(nodes, below);
                if place < left {
                    here = below;
                } else {
                    here = after;
                    place -= left;
                }
            }
        }
    }
}
