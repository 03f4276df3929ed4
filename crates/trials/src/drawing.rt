// Calls that look random, valid ones and ones to be refused.
use crate::draws::Draws;
use crate::plain::lists::Lists;
use crate::plain::rows::Part;
use crate::plan::{Habit, Plan};
use runs::Call;

// How many readings stand beside a list of calls: two halves that are mostly the same.
pub const HALF: usize = 1_100;

// Draws calls on the versions as they stand.
#[derive(Clone, Copy)]
pub struct Drawing {
    pub draws: Draws,
    pub plan: Plan,
    // Where the next span mostly goes to.
    pub to: usize,
}

impl Drawing {
    fn version(&mut self, lists: &Lists) -> u32 {
        let count = lists.count();
        if self.draws.once_in(40) {
            return count.saturating_add(self.draws.below(3));
        }
        if self.draws.once_in(500) {
            return u32::MAX;
        }
        if self.draws.once_in(self.plan.early) {
            return self.draws.below(count.min(self.plan.first));
        }
        count.saturating_sub(1)
    }

    // A place below `n`, or sometimes one past it.
    fn place(&mut self, n: usize) -> u32 {
        let n = u32::try_from(n).unwrap_or(u32::MAX);
        if self.draws.once_in(24) {
            return n.saturating_add(self.draws.below(3));
        }
        if self.draws.once_in(300) {
            return u32::MAX;
        }
        self.draws.below(n)
    }

    fn level(&mut self) -> u8 {
        if self.draws.once_in(32) {
            return 16 + (self.draws.next() & 127) as u8;
        }
        match self.plan.habit {
            Habit::Append => 0,
            _ => self.draws.level(),
        }
    }

    // The rows that stand in a store before the archive begins: each is one that calls may have too.
    pub(crate) fn before(&self, k: usize) -> Part {
        Part {
            from: k
                .checked_rem(self.plan.places)
                .unwrap_or(0)
                .saturating_mul(8),
            len: k
                .checked_rem(self.plan.longest)
                .unwrap_or(0)
                .saturating_add(1),
        }
    }

    // Rows begin at few places, so that many are alike; some do not lie in the readings, and some are too long or have no reading.
    fn row(&mut self) -> Part {
        let half = if self.draws.once_in(2) { 0 } else { HALF };
        let from = half.saturating_add(self.draws.place_below(self.plan.places).saturating_mul(8));
        let len = self.draws.place_below(self.plan.longest).saturating_add(1);
        match self.draws.below(96) {
            0 | 1 => Part { from, len: 0 },
            2 => Part {
                from: 0,
                len: 1_025,
            },
            3 => Part {
                from: 0,
                len: 1_024,
            },
            4 => Part {
                from: HALF.saturating_mul(2),
                len,
            },
            5 => Part {
                from: usize::MAX,
                len,
            },
            _ => Part { from, len },
        }
    }

    // A span, mostly behind the last one, and sometimes so near to the output's end that it may not fit.
    fn span(&mut self, version: u32, a: u32, b: u32) -> Call {
        let to = match self.draws.below(8) {
            0 => self.plan.out.saturating_sub(self.draws.place_below(8)),
            1 => self.draws.place_below(self.plan.out.saturating_add(9)),
            _ => self.to,
        };
        self.span_to(version, a, b, to)
    }

    // A span to a place; the next one goes behind it, or to the start.
    fn span_to(&mut self, version: u32, a: u32, b: u32, to: usize) -> Call {
        let end = to.saturating_add(b.saturating_sub(a) as usize);
        self.to = if end < self.plan.out { end } else { 0 };
        Call::Span { version, a, b, to }
    }

    // A question about a stretch, which sometimes is turned round or passes the end.
    pub(crate) fn question(&mut self, lists: &Lists, version: u32) -> Call {
        let n = lists.list(version).map_or(3, |list| list.len());
        let n = u32::try_from(n).unwrap_or(u32::MAX);
        let x = self.draws.below(n.saturating_add(1));
        let y = self.draws.below(n.saturating_add(1));
        let (a, b) = match self.draws.below(24) {
            0 => (x.max(y), x.min(y)),
            1 => (x, n.saturating_add(1)),
            2 => (n.saturating_add(2), n.saturating_add(2)),
            _ => (x.min(y), x.max(y)),
        };
        if self.draws.once_in(2) {
            self.span(version, a, b)
        } else {
            Call::Summary { version, a, b }
        }
    }

    fn insert(&mut self, base: u32, blocks: usize) -> Call {
        let Part { from, len } = self.row();
        Call::Insert {
            base,
            place: self.place(blocks.saturating_add(1)),
            level: self.level(),
            from,
            len,
        }
    }

    fn append(&mut self, base: u32) -> Call {
        let Part { from, len } = self.row();
        Call::Append { base, from, len }
    }

    fn change(&mut self, base: u32, blocks: usize) -> Call {
        let Part { from, len } = self.row();
        Call::Change {
            base,
            place: self.place(blocks),
            from,
            len,
        }
    }

    fn removal(&mut self, base: u32, blocks: usize) -> Call {
        Call::Remove {
            base,
            place: self.place(blocks),
        }
    }

    pub(crate) fn call(&mut self, lists: &Lists) -> Call {
        let version = self.version(lists);
        let blocks = lists.list(version).map_or(1, |list| list.count());
        if self.draws.below(16) < self.plan.often {
            return match self.plan.habit {
                Habit::Insert => self.insert(version, blocks),
                Habit::Append => self.append(version),
                Habit::Remove => self.removal(version, blocks),
            };
        }
        match self.draws.below(12) {
            0 | 1 => self.insert(version, blocks),
            2 => self.append(version),
            3..=5 => self.change(version, blocks),
            6 | 7 => self.removal(version, blocks),
            8 | 9 => {
                let n = lists.list(version).map_or(3, |list| list.len());
                Call::Reading {
                    version,
                    position: self.place(n),
                }
            }
            _ => self.question(lists, version),
        }
    }

    // The span over a whole version.
    pub(crate) fn whole(&mut self, lists: &Lists, version: u32) -> Call {
        let n = lists.list(version).map_or(0, |list| list.len());
        let b = u32::try_from(n).unwrap_or(u32::MAX);
        let to = self.to;
        let end = to.saturating_add(n);
        let to = if end <= self.plan.out { to } else { 0 };
        self.span_to(version, 0, b, to)
    }
}
