// What an edit on the caller's nodes comes to for the table, and the nodes lent to a question.
ghost use Rattle.std.specs.Prelude.{◌≡◌, ◌+◌, ◌-◌, ◌<◌, ◌≤◌};

use super::{Accepted, NodeTable};
use nodes::{Built, Node};
use summary::Summary;

impl<Q: Summary> NodeTable<'_, Q> {
    // Takes in what an edit wrote, and answers for it.
    pub(super) fn take_in(&mut self, built: Built) -> Accepted
        requires { (self.old.used ≤ built.used) × (self.old.count < 4096) }
        ensures answer { result ≡ record {
          version = self.old.count;
          written = built.used - self.old.used;
        } }
        ensures used { self.new.used ≡ built.used }
        ensures count { self.new.count ≡ self.old.count + 1 }
        ensures nodes { self.new.nodes ≡ self.old.nodes }
    {
        let accepted = Accepted {
            version: self.count,
            written: built.used - self.used,
        };
        self.used = built.used;
        self.count = self.count + 1;
        accepted
    }

    // The caller's nodes, to be read.
    pub(super) fn lent(&self) -> &[Node<Q>]
        ensures { result.now ≡ self.now.nodes.now }
    {
        self.nodes
    }
}
