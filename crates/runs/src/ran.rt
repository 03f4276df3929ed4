/// How a list of calls was carried out: how many calls, and how many nodes and versions are in use then.
#[derive(Clone, Copy, PartialEq, Eq, Debug)]
pub struct Ran {
    pub done: usize,
    pub used: u32,
    pub count: u32,
}
