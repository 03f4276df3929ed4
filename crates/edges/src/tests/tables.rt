// Tables of calls, with what each is to answer.
use super::outcome::Outcome;
use super::rig::OUTPUT;
use Outcome::{Accepted, Refused, Told};
use runs::Call;

// A call in one line of a table: its numbers stand in the order of the variant's fields, and a span's last is how many readings the output has
// room for. A constant's value calls no function, so this is a macro.
macro_rules! call {
    (Insert($base:expr, $place:expr, $level:expr, $from:expr, $len:expr)) => {
        Call::Insert {
            base: $base,
            place: $place,
            level: $level,
            from: $from,
            len: $len,
        }
    };
    (Append($base:expr, $from:expr, $len:expr)) => {
        Call::Append {
            base: $base,
            from: $from,
            len: $len,
        }
    };
    (Change($base:expr, $place:expr, $from:expr, $len:expr)) => {
        Call::Change {
            base: $base,
            place: $place,
            from: $from,
            len: $len,
        }
    };
    (Remove($base:expr, $place:expr)) => {
        Call::Remove {
            base: $base,
            place: $place,
        }
    };
    (Reading($version:expr, $position:expr)) => {
        Call::Reading {
            version: $version,
            position: $position,
        }
    };
    (Span($version:expr, $a:expr, $b:expr, $room:expr)) => {
        Call::Span {
            version: $version,
            a: $a,
            b: $b,
            to: OUTPUT - $room,
        }
    };
    (Summary($version:expr, $a:expr, $b:expr)) => {
        Call::Summary {
            version: $version,
            a: $a,
            b: $b,
        }
    };
}

pub const THREE: [(Call, Outcome); 1] = [(call!(Insert(0, 0, 0, 0, 3)), Refused(7, 0))];

pub const FOUR: [(Call, Outcome); 1] = [(call!(Insert(0, 0, 0, 0, 3)), Accepted(1, Some(2)))];

// No version, since a table is empty.
pub const NONE: [(Call, Outcome); 7] = [
    (call!(Insert(0, 0, 0, 0, 1)), Refused(1, 0)),
    (call!(Append(0, 0, 1)), Refused(1, 0)),
    (call!(Change(0, 0, 0, 1)), Refused(1, 0)),
    (call!(Remove(0, 0)), Refused(1, 0)),
    (call!(Reading(0, 0)), Refused(1, 0)),
    (call!(Span(0, 0, 0, 3)), Refused(1, 0)),
    (call!(Summary(0, 0, 0)), Refused(1, 0)),
];

// Versions, places, levels, rows and positions at their edges, in an area of 2,051 readings and eight versions.
pub const EDGES: [(Call, Outcome); 55] = [
    (call!(Insert(1, 0, 0, 0, 1)), Refused(1, 0)),
    (call!(Append(1, 0, 1)), Refused(1, 0)),
    (call!(Change(1, 0, 0, 1)), Refused(1, 0)),
    (call!(Remove(1, 0)), Refused(1, 0)),
    (call!(Reading(1, 0)), Refused(1, 0)),
    (call!(Span(1, 0, 0, 3)), Refused(1, 0)),
    (call!(Summary(1, 0, 0)), Refused(1, 0)),
    (call!(Insert(0, 1, 0, 0, 1)), Refused(2, 0)),
    (call!(Change(0, 0, 0, 1)), Refused(2, 0)),
    (call!(Remove(0, 0)), Refused(2, 0)),
    (call!(Reading(0, 0)), Refused(2, 0)),
    (call!(Span(0, 0, 0, 0)), Told(0)),
    (call!(Span(0, 0, 1, 4)), Refused(2, 0)),
    (call!(Insert(0, 0, 16, 0, 1)), Refused(3, 0)),
    (call!(Insert(0, 0, 255, 0, 1)), Refused(3, 0)),
    (call!(Insert(0, 0, 15, 0, 0)), Refused(4, 0)),
    (call!(Insert(0, 0, 15, 0, 1025)), Refused(4, 0)),
    (call!(Append(0, 0, 0)), Refused(4, 0)),
    (call!(Append(0, 0, 1025)), Refused(4, 0)),
    // version 1: one block of one reading, of the highest level
    (call!(Insert(0, 0, 15, 0, 1)), Accepted(1, Some(2))),
    (call!(Insert(2, 0, 0, 0, 1)), Refused(1, 0)),
    (call!(Insert(1, 2, 0, 0, 1)), Refused(2, 0)),
    (call!(Change(1, 1, 0, 1)), Refused(2, 0)),
    (call!(Remove(1, 1)), Refused(2, 0)),
    (call!(Change(1, 0, 0, 0)), Refused(4, 0)),
    (call!(Change(1, 0, 0, 1025)), Refused(4, 0)),
    (call!(Reading(1, 0)), Told(2)),
    (call!(Reading(1, 1)), Refused(2, 0)),
    (call!(Span(1, 0, 1, 0)), Refused(9, 0)),
    (call!(Span(1, 0, 1, 1)), Told(1)),
    (call!(Span(1, 0, 1, 4)), Told(1)),
    (call!(Span(1, 1, 1, 0)), Told(0)),
    (call!(Span(1, 1, 0, 4)), Refused(2, 0)),
    (call!(Span(1, 0, 2, 0)), Refused(2, 0)),
    (call!(Span(1, 2, 2, 0)), Refused(2, 0)),
    (call!(Span(2, 1, 0, 0)), Refused(1, 0)),
    (call!(Summary(1, 1, 0)), Refused(2, 0)),
    (call!(Summary(1, 0, 2)), Refused(2, 0)),
    (call!(Summary(2, 1, 0)), Refused(1, 0)),
    // versions 2 and 3: the longest row, by a change and by an insert at the end
    (call!(Change(1, 0, 50, 1024)), Accepted(2, Some(2))),
    (call!(Insert(1, 1, 0, 10, 1024)), Accepted(3, Some(3))),
    (call!(Span(3, 1, 1025, 1023)), Refused(9, 0)),
    (call!(Span(3, 1, 1025, 1024)), Told(1024)),
    (call!(Span(3, 0, 1026, 1025)), Refused(2, 0)),
    (call!(Reading(3, 1024)), Told(3)),
    (call!(Reading(3, 1025)), Refused(2, 0)),
    // of the area's 2,051 readings two are left
    (call!(Append(0, 7, 3)), Refused(8, 3)),
    (call!(Insert(3, 1, 1, 7, 3)), Refused(8, 3)),
    (call!(Change(3, 1, 7, 3)), Refused(8, 3)),
    (call!(Change(3, 1, 7, 2)), Accepted(4, Some(3))),
    (call!(Change(3, 1, 7, 1)), Refused(8, 3)),
    (call!(Remove(3, 0)), Accepted(5, None)),
    (call!(Remove(3, 1)), Accepted(6, None)),
    (call!(Remove(6, 0)), Accepted(7, Some(0))),
    // eight versions are all
    (call!(Remove(6, 0)), Refused(6, 0)),
];

// The list a, b, c, d of levels 0, 1, 2, 0, its paths, and edits of it.
pub const SHAPES: [(Call, Outcome); 25] = [
    (call!(Insert(0, 0, 0, 0, 1)), Accepted(1, Some(2))),
    (call!(Insert(1, 1, 1, 10, 2)), Accepted(2, Some(2))),
    (call!(Insert(2, 2, 2, 20, 3)), Accepted(3, Some(2))),
    (call!(Append(3, 30, 1)), Accepted(4, Some(3))),
    (call!(Reading(4, 0)), Told(4)),
    (call!(Reading(4, 2)), Told(3)),
    (call!(Reading(4, 3)), Told(2)),
    (call!(Reading(4, 6)), Told(3)),
    (call!(Insert(4, 1, 1, 40, 2)), Accepted(5, Some(4))),
    (call!(Reading(5, 1)), Told(4)),
    (call!(Reading(5, 3)), Told(4)),
    (call!(Change(4, 0, 50, 3)), Accepted(6, Some(4))),
    (call!(Change(4, 1, 50, 3)), Accepted(7, Some(3))),
    (call!(Change(4, 2, 50, 3)), Accepted(8, Some(2))),
    (call!(Change(4, 3, 50, 3)), Accepted(9, Some(3))),
    (call!(Remove(4, 0)), Accepted(10, Some(3))),
    (call!(Remove(4, 1)), Accepted(11, Some(1))),
    (call!(Remove(4, 2)), Accepted(12, Some(2))),
    (call!(Remove(4, 3)), Accepted(13, Some(2))),
    // before a list of one block of level 0
    (call!(Insert(1, 0, 2, 60, 2)), Accepted(14, Some(3))),
    (call!(Insert(1, 0, 0, 60, 2)), Accepted(15, Some(2))),
    // lone blocks of levels 0 and 3 go
    (call!(Remove(1, 0)), Accepted(16, Some(1))),
    (call!(Insert(0, 0, 3, 60, 2)), Accepted(17, Some(2))),
    (call!(Remove(17, 0)), Accepted(18, Some(0))),
    // nineteen versions are all
    (call!(Remove(17, 0)), Refused(6, 0)),
];

// The same list takes 10 nodes.
pub const LIST: [(Call, Outcome); 4] = [
    (call!(Insert(0, 0, 0, 0, 1)), Accepted(1, Some(2))),
    (call!(Insert(1, 1, 1, 10, 2)), Accepted(2, Some(2))),
    (call!(Insert(2, 2, 2, 20, 3)), Accepted(3, Some(2))),
    (call!(Append(3, 30, 1)), Accepted(4, Some(3))),
];

// What is then tried, with 6, 5, 4, 3, 2 or 1 more.
pub const TIGHT: [[(Call, Outcome); 4]; 6] = [
    [
        (call!(Insert(4, 1, 1, 40, 2)), Accepted(5, Some(4))),
        (call!(Insert(4, 1, 1, 40, 2)), Refused(7, 0)),
        (call!(Remove(4, 3)), Accepted(6, Some(2))),
        (call!(Remove(4, 3)), Refused(7, 0)),
    ],
    [
        (call!(Insert(4, 1, 1, 40, 2)), Refused(7, 0)),
        (call!(Append(4, 40, 2)), Accepted(5, Some(4))),
        (call!(Append(4, 40, 2)), Refused(7, 0)),
        (call!(Change(4, 2, 40, 2)), Refused(7, 0)),
    ],
    [
        (call!(Append(4, 40, 2)), Refused(7, 0)),
        (call!(Insert(4, 3, 0, 40, 2)), Accepted(5, Some(3))),
        (call!(Change(4, 0, 40, 2)), Refused(7, 0)),
        (call!(Remove(4, 3)), Refused(7, 0)),
    ],
    [
        (call!(Insert(4, 3, 0, 40, 2)), Refused(7, 0)),
        (call!(Change(4, 0, 40, 2)), Refused(7, 0)),
        (call!(Remove(4, 1)), Refused(7, 0)),
        (call!(Remove(4, 0)), Accepted(5, Some(3))),
    ],
    [
        (call!(Remove(4, 0)), Refused(7, 0)),
        (call!(Change(4, 1, 40, 2)), Refused(7, 0)),
        (call!(Change(4, 2, 40, 2)), Accepted(5, Some(2))),
        (call!(Remove(1, 0)), Refused(7, 0)),
    ],
    [
        (call!(Change(4, 2, 40, 2)), Refused(7, 0)),
        (call!(Remove(4, 3)), Refused(7, 0)),
        (call!(Remove(1, 0)), Accepted(5, Some(1))),
        (call!(Remove(1, 0)), Refused(7, 0)),
    ],
];

// In an area of seven readings: only rows that are remembered fit at the end.
pub const SHARED: [(Call, Outcome); 8] = [
    (call!(Insert(0, 0, 0, 0, 4)), Accepted(1, Some(2))),
    (call!(Change(1, 0, 10, 3)), Accepted(2, Some(2))),
    (call!(Change(2, 0, 0, 4)), Accepted(3, Some(2))),
    (call!(Append(3, 10, 3)), Accepted(4, Some(3))),
    (call!(Change(4, 1, 0, 4)), Accepted(5, Some(3))),
    (call!(Change(4, 1, 0, 3)), Refused(8, 3)),
    (call!(Append(5, 10, 2)), Refused(8, 3)),
    (call!(Insert(5, 1, 2, 10, 3)), Accepted(6, None)),
];

// In a store with one block of a thousand left.
pub const PACKED: [(Call, Outcome); 4] = [
    (call!(Insert(0, 0, 0, 0, 1)), Accepted(1, Some(2))),
    (call!(Insert(0, 0, 0, 0, 1)), Refused(8, 2)),
    (call!(Change(1, 0, 0, 1)), Refused(8, 2)),
    (call!(Remove(1, 0)), Accepted(2, Some(1))),
];

// A version of 500 blocks, all versions in use, one node and no place in the store free: each call breaks its rule and the later ones.
pub const ORDER: [(Call, Outcome); 29] = [
    (call!(Insert(501, 999, 16, 0, 0)), Refused(1, 0)),
    (call!(Insert(500, 501, 16, 0, 0)), Refused(2, 0)),
    (call!(Insert(500, 500, 16, 0, 0)), Refused(3, 0)),
    (call!(Insert(500, 500, 15, 0, 0)), Refused(4, 0)),
    (call!(Insert(500, 500, 15, 0, 1025)), Refused(4, 0)),
    (call!(Insert(500, 500, 15, 0, 1)), Refused(5, 0)),
    (call!(Insert(500, 0, 0, 0, 1024)), Refused(5, 0)),
    (call!(Append(501, 0, 0)), Refused(1, 0)),
    (call!(Append(500, 0, 0)), Refused(4, 0)),
    (call!(Append(500, 0, 1)), Refused(5, 0)),
    (call!(Insert(499, 500, 15, 0, 1)), Refused(2, 0)),
    (call!(Insert(499, 499, 15, 0, 1)), Refused(6, 0)),
    (call!(Append(499, 0, 1)), Refused(6, 0)),
    (call!(Change(501, 999, 0, 0)), Refused(1, 0)),
    (call!(Change(500, 500, 0, 0)), Refused(2, 0)),
    (call!(Change(500, 499, 0, 0)), Refused(4, 0)),
    (call!(Change(500, 499, 0, 1)), Refused(6, 0)),
    (call!(Remove(501, 999)), Refused(1, 0)),
    (call!(Remove(500, 500)), Refused(2, 0)),
    (call!(Remove(500, 499)), Refused(6, 0)),
    (call!(Span(501, 5, 4, 0)), Refused(1, 0)),
    (call!(Span(500, 5, 4, 0)), Refused(2, 0)),
    (call!(Span(500, 0, 501, 0)), Refused(2, 0)),
    (call!(Span(500, 0, 500, 499)), Refused(9, 0)),
    (call!(Span(500, 0, 500, 500)), Told(500)),
    (call!(Reading(501, 999)), Refused(1, 0)),
    (call!(Reading(500, 500)), Refused(2, 0)),
    (call!(Summary(501, 5, 4)), Refused(1, 0)),
    (call!(Summary(500, 5, 4)), Refused(2, 0)),
];

// The same with one version free.
pub const NODELESS: [(Call, Outcome); 6] = [
    (call!(Insert(500, 500, 0, 0, 1)), Refused(5, 0)),
    (call!(Insert(499, 499, 0, 0, 0)), Refused(4, 0)),
    (call!(Insert(499, 499, 0, 0, 1)), Refused(7, 0)),
    (call!(Append(0, 0, 1)), Refused(7, 0)),
    (call!(Change(500, 0, 0, 1)), Refused(7, 0)),
    (call!(Remove(500, 0)), Refused(7, 0)),
];

// Nodes are free too, and the store is still full: a removal goes, and takes the last version.
pub const STOREFULL: [(Call, Outcome); 6] = [
    (call!(Append(500, 0, 1)), Refused(5, 0)),
    (call!(Append(499, 0, 1)), Refused(8, 3)),
    (call!(Insert(499, 0, 15, 0, 1)), Refused(8, 3)),
    (call!(Change(500, 499, 0, 1)), Refused(8, 3)),
    (call!(Remove(500, 499)), Accepted(501, None)),
    (call!(Append(499, 0, 1)), Refused(6, 0)),
];

// Room for all: 500 blocks take a change and a removal, and 499 one more.
pub const ROOMY: [(Call, Outcome); 8] = [
    (call!(Append(500, 0, 1)), Refused(5, 0)),
    (call!(Insert(500, 0, 0, 0, 1)), Refused(5, 0)),
    (call!(Change(500, 499, 7, 1)), Accepted(501, None)),
    (call!(Append(501, 0, 1)), Refused(5, 0)),
    (call!(Remove(501, 0)), Accepted(502, None)),
    (call!(Append(502, 9, 1)), Accepted(503, None)),
    (call!(Append(503, 0, 1)), Refused(5, 0)),
    (call!(Reading(503, 500)), Refused(2, 0)),
];
