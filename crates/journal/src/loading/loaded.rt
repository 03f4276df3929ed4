// What loading answers: the archive's node table, and how many versions there are, or why loading stopped and where.
use crate::fault::LoadFault;
use archive::NodeTable;

/// What a load gives: the table of the archive that it began, and how many versions there are or why it stopped.
#[derive(Drop)]
pub struct Loaded<'a, Q> {
    pub table: NodeTable<'a, Q>,
    pub answer: Result<u32, LoadFault>,
}
