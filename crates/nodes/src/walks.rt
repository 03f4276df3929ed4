/// What a walk that builds a tree, or a write of one node, answers: the entry of its root, and the next free entry.
#[derive(Clone, Copy, PartialEq, Eq, Debug)]
pub struct Built {
    pub root: u32,
    pub used: u32,
}
