// The beginning of an archive.
ghost use Rattle.std.specs.Prelude.{◌≡◌, ◌||◌, ◌==◌};
ghost use Rattle.archive.specs.Beginning.{Begin};

use crate::version::{Version, begun};
use nodes::Node;
use summary::Summary;

/// What begin uses of the tables.
#[derive(Clone, Copy, PartialEq, Eq, Debug)]
pub struct Begun {
    pub used: u32,
    pub count: u32,
}

// Is a table of so many nodes, or one of so many versions, empty?
fn is_empty(nodes: usize, versions: usize) -> bool
    ensures { result ≡ (nodes == 0 || versions == 0) }
{
    nodes == 0 || versions == 0
}

// Writes the lead's leaf and the record of version 0; where either table is empty, nothing.
pub(crate) fn begin_in<Q: Summary>(nodes: &mut [Node<Q>], versions: &mut [Version]) -> Begun
    ensures { Begin Q.Summary.means nodes.old versions.old result nodes.new versions.new }
{
    if is_empty(nodes.len(), versions.len()) {
        return Begun { used: 0, count: 0 };
    }
    nodes[0] = Node::lead();
    versions[0] = begun();
    Begun { used: 1, count: 1 }
}
