// The tables of a report.
ghost use Rattle.std.specs.Prelude.{◌≡◌, ◌++◌, IfOk, OnOk, string_bytes};
ghost use Rattle.report_text.specs.Report.{fault_text, ReportedOver, ReportedFirst};

use crate::fault_line::FaultLine;
use crate::lines::version_lines;
use archive::Version;
use journal::{LoadFault, Loaded, load};
use nodes::Node;
use reading::Count;
use std::alloc::{AllocError, Global};
use std::fmt::Write;
use store::{BlockStore, RowStore};
use summary::Peak;

// Adds the line of the fault that stopped loading to a text; nothing where none did.
fn fault_line(answer: Result<u32, LoadFault>, text: &mut String) -> Result<(), AllocError>
    ensures { OnOk result (string_bytes text.new ≡ string_bytes text.old ++ fault_text answer) }
{
    if let Err(fault) = answer {
        let line = FaultLine(fault);
        write!(text, "{line}")?;
    }
    Ok(())
}

// The text of a journal, loaded into tables, a store and a row area.
fn report_over<S: BlockStore<Reading = Count> + Drop>(
    heap: Global,
    bytes: &[u8],
    nodes: &mut [Node<Peak<Count>>],
    versions: &mut [Version],
    mut store: S,
    area: &mut [Count],
) -> Result<String, AllocError>
    ensures { IfOk result (λ s. ReportedOver S.BlockStore nodes.old versions.old store area.old
        bytes.now (string_bytes s)) }
{
    let Loaded { table, answer } = load(bytes, nodes, versions, &mut store, area);
    let mut text = String::from_str(heap, "version blocks readings written peak place\n")?;
    version_lines(&table, versions, &store, &mut text)?;
    fault_line(answer, &mut text)?;
    Ok(text)
}

// The text of the first bytes, at most so many.
pub(crate) fn report_first(heap: Global, bytes: &[u8], most: usize) -> Result<String, AllocError>
    ensures { IfOk result (λ s. ReportedFirst most bytes.now (string_bytes s)) }
{
    let mut nodes = [Node::<Peak<Count>>::lead(); 1024];
    let mut versions = [Version::default(); 256];
    let mut area = [Count { value: 0 }; 1024];
    let mut rows = [Count { value: 0 }; 4096];
    let few = bytes.len().min(most);
    report_over(
        heap,
        &bytes[0..few],
        &mut nodes,
        &mut versions,
        RowStore::new(&mut rows),
        &mut area,
    )
}
