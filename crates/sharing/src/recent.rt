// Under which numbers rows went below, for the latest 32 of them, in a table of records that is written round and round.
// A table of records with its own methods, and no ring of the library: that form is the project's rule.
ghost use Rattle.std.specs.Prelude.{◌≡◌, ◌<◌, ◌≤◌, length};

mod table;

#[derive(Clone, Copy)]
pub struct Entry {
    block: u32,
}

#[derive(Clone, Copy)]
pub struct Recent {
    entries: [Entry; 32],
    // The entry that is written next.
    next: usize,
    // How many entries are in use.
    held: usize,
    ghost whole: { length entries ≡ 32 },
    ghost turns: { next < 32 },
    ghost most: { held ≤ 32 },
}
