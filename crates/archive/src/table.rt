// The node table of an archive.
ghost use Rattle.std.specs.Prelude.{◌≡◌};

use nodes::Node;

mod calls;
mod counting;

/// What an accepted edit answers: under which number its version goes, and how many nodes it wrote.
#[derive(Clone, Copy, PartialEq, Eq, Debug)]
pub struct Accepted {
    pub version: u32,
    pub written: u32,
}

/// The caller's nodes, how many of them are in use, and how many versions there are. A slice and how much of it is used, and no vector: the caller's memory
/// is the project's rule, and there is no heap.
/// That a call keeps the reference to them stands as a clause `same_slice` at each call: an invariant of the type speaks of one value, and not of two.
pub struct NodeTable<'a, Q> {
    nodes: &'a mut [Node<Q>],
    used: u32,
    count: u32,
}

// Letting a table go leaves the caller's nodes as the last call left them.
impl<Q> Drop for NodeTable<'_, Q> {
    fn drop(self)
        ensures { self.exit.0.now ≡ self.entry.nodes.now }
    {
        let NodeTable {
            nodes: _,
            used: _,
            count: _,
        } = self;
    }
}
