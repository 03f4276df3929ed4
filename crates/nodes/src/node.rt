// A node of a version's FlexList, as it stands in a table: children are entries of the same table, below the node's own.
// Entries and no references: one slice of nodes that versions share is the project's rule.
ghost use Rattle.std.specs.Prelude.{◌≡◌, None};
ghost use Rattle.flexlist.specs.Edits.{lead};
ghost use Rattle.nodes.specs.Holding.{leaf_node};

use summary::Summary;

/// What a node is.
#[derive(Clone, Copy, PartialEq, Eq, Debug)]
pub enum Shape {
    /// A block's leaf: its number in the store, its length, and the entry of what follows, if anything does. The lead has length 0.
    Leaf {
        block: u32,
        length: u32,
        after: Option<u32>,
    },
    /// A fork: its level, and the entries of what is below and after it.
    Fork {
        level: u8,
        below: u32,
        after: u32,
    },
}

/// A node, with the counts of the readings and blocks of its whole stretch, and their summary. The lead is no block.
/// `row` is the summary of a leaf's own row, and of no reading at a fork: where a leaf is written anew, or lies in a span with its
/// row but not with its stretch, the row itself need not be read again.
#[derive(Clone, Copy, PartialEq, Eq, Debug)]
pub struct Node<Q> {
    pub shape: Shape,
    pub readings: u32,
    pub blocks: u32,
    pub summary: Q,
    pub row: Q,
}

/// A block as its leaf keeps it: its number in the store, its length, and the summary of its row.
#[derive(Clone, Copy, PartialEq, Eq, Debug)]
pub struct Block<Q> {
    pub number: u32,
    pub length: u32,
    pub row: Q,
}

impl<Q: Summary> Node<Q> {
    /// The leaf of the lead with nothing after it: it counts nothing, and its summary is that of no reading.
    pub fn lead() -> Self
        ensures { result ≡ leaf_node Q.Summary.means lead None }
    {
        Node {
            shape: Shape::Leaf {
                block: 0,
                length: 0,
                after: None,
            },
            readings: 0,
            blocks: 0,
            summary: Q::nothing(),
            row: Q::nothing(),
        }
    }
}
