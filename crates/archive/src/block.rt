// The block of the row that an edit brings.
ghost use Rattle.std.specs.Prelude.{◌^◌, ◌<◌, length};
ghost use Rattle.nodes.specs.Making.{LeafOf};

use nodes::Block;
use summary::{Summary, summary_of};

// A row as its leaf keeps it, under the number that the store gave it. The caller's row is read, and the store is not.
pub(crate) fn block_of<Q: Summary>(number: u32, row: &[Q::Reading]) -> Block<Q>
    requires { length row.now < 2 ^ 32 }
    ensures { LeafOf Q.Summary.means (record { number = number; row = row.now }) result }
{
    Block {
        number,
        length: row.len() as u32,
        row: summary_of(row),
    }
}
