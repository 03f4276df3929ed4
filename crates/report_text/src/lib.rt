//! The report of a journal of counts: a line for each version of the archive that it gives, and one for the fault that stopped loading.
#![tactic(auto)]

ghost use Rattle.std.specs.Prelude.{IfOk, string_bytes};
ghost use Rattle.report_text.specs.Report.{Reported};

use std::alloc::{AllocError, Global};

mod fault_line;
mod laws;
mod lines;
mod stream;
mod tables;

pub use laws::one_text;
pub use stream::report_stream;

/// The text of the first 32,768 bytes.
pub fn report(heap: Global, bytes: &[u8]) -> Result<String, AllocError>
    ensures { IfOk result (λ s. Reported bytes.now (string_bytes s)) }
{
    tables::report_first(heap, bytes, 32_768)
}

#[cfg(test)]
mod tests;
