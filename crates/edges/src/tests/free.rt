// What free entries of the tables hold.
use archive::{Kind, Version};
use nodes::{Node, Shape};
use summary::Summary;

// What a free entry holds before an archive begins: nothing that an archive writes. The tests of journals have such marks too: a library would have
// to make them public for both.
pub(super) fn free_node<Q: Summary>() -> Node<Q> {
    Node {
        shape: Shape::Fork {
            level: 99,
            below: 77,
            after: 88,
        },
        readings: 66,
        blocks: 55,
        summary: Q::nothing(),
        row: Q::nothing(),
    }
}

pub(super) fn free_record() -> Version {
    Version {
        parent: 91,
        edit: Kind::Begun,
        place: 92,
        level: 93,
        block: 94,
        root: 95,
        blocks: 96,
        readings: 97,
        written: 98,
    }
}
