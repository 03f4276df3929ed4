// What the trials of one combination came to, and how it prints.
use crate::plain::answer::Answer;
use runs::Call;
use std::fmt;

// Nodes written for an edit, and the nodes of its path.
#[derive(Clone, Copy, PartialEq, Eq, Debug)]
pub struct Ratio {
    pub written: usize,
    pub path: usize,
}

impl Ratio {
    fn none() -> Ratio {
        Ratio {
            written: 0,
            path: 1,
        }
    }

    // The greater of two ratios, the first where they are alike.
    fn or_greater(self, other: Ratio) -> Ratio {
        let ours = self.written.saturating_mul(other.path);
        let others = other.written.saturating_mul(self.path);
        if ours < others { other } else { self }
    }
}

impl fmt::Display for Ratio {
    fn fmt<W: fmt::Write>(&self, f: &mut fmt::Formatter<W>) -> fmt::Result {
        write!(f, "{}/{}", self.written, self.path)
    }
}

// How many calls were refused by each number; 8 by the store's cause.
#[derive(Clone, Copy, PartialEq, Eq, Debug)]
pub struct Refusals {
    // By 0 to 9, of which 0 and 8 stay 0.
    pub numbers: [u32; 10],
    // By the store's causes 0 to 3, of which 0 stays 0.
    pub causes: [u32; 4],
}

// Counts one more at a place, where there is such a place.
fn one_more(counts: &mut [u32], place: u32) {
    if let Some(count) = counts.get_mut(place as usize) {
        *count = count.saturating_add(1);
    }
}

impl Refusals {
    fn count(&mut self, number: u32, cause: u32) {
        if number == 8 {
            one_more(&mut self.causes, cause);
        } else {
            one_more(&mut self.numbers, number);
        }
    }
}

impl fmt::Display for Refusals {
    fn fmt<W: fmt::Write>(&self, f: &mut fmt::Formatter<W>) -> fmt::Result {
        let [_, a, b, c, d, e, g, h, _, k] = self.numbers;
        let [_, length, blocks, area] = self.causes;
        write!(
            f,
            "{a} {b} {c} {d} {e} {g} {h} {length} {blocks} {area} {k}"
        )
    }
}

#[derive(Clone, Copy, PartialEq, Eq, Debug)]
pub struct Line {
    pub calls: u32,
    pub accepted: u32,
    pub refusals: Refusals,
    pub differences: u32,
    // The greatest ratios of inserts, changes and removals.
    pub insert: Ratio,
    pub change: Ratio,
    pub removal: Ratio,
}

impl Line {
    pub(crate) fn empty() -> Line {
        Line {
            calls: 0,
            accepted: 0,
            refusals: Refusals {
                numbers: [0; 10],
                causes: [0; 4],
            },
            differences: 0,
            insert: Ratio::none(),
            change: Ratio::none(),
            removal: Ratio::none(),
        }
    }

    pub(crate) fn differ(&mut self, so_many: u32) {
        self.differences = self.differences.saturating_add(so_many);
    }

    fn edited(&mut self, call: Call, ratio: Ratio) {
        match call {
            Call::Change { .. } => self.change = self.change.or_greater(ratio),
            Call::Remove { .. } => self.removal = self.removal.or_greater(ratio),
            _ => self.insert = self.insert.or_greater(ratio),
        }
    }

    pub(crate) fn count<R>(&mut self, call: Call, answer: &Answer<R>) {
        self.calls = self.calls.saturating_add(1);
        match answer {
            Answer::Refused(number, cause) => {
                self.refusals.count(*number, *cause);
                return;
            }
            Answer::Edited { written, path, .. } => {
                let ratio = Ratio {
                    written: *written,
                    path: *path,
                };
                self.edited(call, ratio);
            }
            _ => {}
        }
        self.accepted = self.accepted.saturating_add(1);
    }
}

impl fmt::Display for Line {
    fn fmt<W: fmt::Write>(&self, f: &mut fmt::Formatter<W>) -> fmt::Result {
        let Line {
            calls,
            accepted,
            refusals,
            differences,
            insert,
            change,
            removal,
        } = self;
        write!(
            f,
            "{calls} {accepted} {refusals} {differences} {insert} {change} {removal}"
        )
    }
}
