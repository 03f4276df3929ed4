// What the record of an edit says.

// An edit without its row.
#[derive(Clone, Copy, PartialEq, Eq, Debug)]
pub(crate) enum Step {
    Insert { base: u32, place: u32, level: u8 },
    Change { base: u32, place: u32 },
    Removal { base: u32, place: u32 },
}

// The edit, how many readings its row has, and where they begin.
#[derive(Clone, Copy, PartialEq, Eq, Debug)]
pub(crate) struct Opening {
    pub step: Step,
    pub count: usize,
    pub next: usize,
}
