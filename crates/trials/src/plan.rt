// What a trial draws: how large its tables are, and which calls are frequent.
use crate::draws::Draws;
use crate::plain::lists::Room;
use std::alloc::{AllocError, Global};

// Which edit is drawn more often than others.
#[derive(Clone, Copy, PartialEq, Eq, Debug)]
pub enum Habit {
    // An insert, with a level by trailing zero bits.
    Insert,
    // An append; every level that is drawn is 0.
    Append,
    Remove,
}

#[derive(Clone, Copy, PartialEq, Eq, Debug)]
pub struct Plan {
    pub seed: u32,
    pub room: Room,
    // How many readings the store's area and the output have room for.
    pub area: usize,
    pub out: usize,
    // How many calls are drawn; at the end others look at every version.
    pub calls: u32,
    pub habit: Habit,
    // So many in sixteen calls are the frequent edit without more ado.
    pub often: u32,
    // Rows mostly have at most so many readings, and begin at so many places of those beside the calls.
    pub longest: usize,
    pub places: usize,
    // So many rows stand in the store below the outermost layer before the archive begins.
    pub before: usize,
    // Once in so many calls the base is one of the first so many versions, and else the newest.
    pub early: u32,
    pub first: u32,
    // Is every reading of every version asked for at the end, or one?
    pub whole: bool,
}

// Tables so small that most edits are refused.
fn tiny(draws: &mut Draws) -> Plan {
    Plan {
        seed: draws.next(),
        room: Room {
            nodes: draws.place_below(12),
            versions: draws.place_below(6),
        },
        area: draws.place_below(16),
        out: 60,
        calls: 40,
        habit: Habit::Insert,
        often: 5,
        longest: 3,
        places: 3,
        before: draws.place_below(3),
        early: 3,
        first: 6,
        whole: true,
    }
}

// Tables of which each is full in some trial.
fn middle(draws: &mut Draws) -> Plan {
    Plan {
        seed: draws.next(),
        room: Room {
            nodes: 200 + (draws.next() & 511) as usize,
            versions: 40 + (draws.next() & 63) as usize,
        },
        area: 60 + (draws.next() & 511) as usize,
        out: 3_000,
        calls: 250,
        habit: Habit::Insert,
        often: 4,
        longest: 5,
        places: 12,
        before: draws.place_below(8),
        early: 4,
        first: 100,
        whole: true,
    }
}

// More versions than an archive may have, and more blocks than a store may.
fn many(draws: &mut Draws) -> Plan {
    Plan {
        seed: draws.next(),
        room: Room {
            nodes: 60_400,
            versions: 4_100,
        },
        area: 60_000,
        out: 600_000,
        calls: 8_000,
        habit: Habit::Remove,
        often: 8,
        longest: 3,
        places: 60,
        before: 40,
        early: 1,
        first: 200,
        whole: false,
    }
}

// Versions of as many blocks as there may be.
fn long(draws: &mut Draws) -> Plan {
    Plan {
        seed: draws.next(),
        room: Room {
            nodes: 30_000,
            versions: 900,
        },
        area: 60_000,
        out: 1_200_000,
        calls: 800,
        habit: Habit::Insert,
        often: 13,
        longest: 3,
        places: 12,
        before: 0,
        early: 1_000_000,
        first: 1_000,
        whole: false,
    }
}

// More nodes than an archive may have.
fn flat(draws: &mut Draws) -> Plan {
    Plan {
        seed: draws.next(),
        room: Room {
            nodes: 60_400,
            versions: 600,
        },
        area: 60_000,
        out: 200_000,
        calls: 500,
        habit: Habit::Append,
        often: 15,
        longest: 3,
        places: 12,
        before: 0,
        early: 1_000_000,
        first: 1_000,
        whole: false,
    }
}

// The plans of one combination, from tiny tables to large ones.
pub(crate) fn plans(heap: Global, seed: u32) -> Result<Vec<Plan>, AllocError> {
    let mut draws = Draws::from_seed(seed);
    let mut all = Vec::new(heap);
    for _ in 0..24u32 {
        all.push(tiny(&mut draws))?;
    }
    for _ in 0..4u32 {
        all.push(middle(&mut draws))?;
    }
    all.push(many(&mut draws))?;
    all.push(long(&mut draws))?;
    all.push(flat(&mut draws))?;
    Ok(all)
}
