// The report of an input, written to an output.
ghost use Rattle.std.specs.Prelude.{Some, OnOk, OnErr};
ghost use Rattle.streams.specs.Streams.{Answers, BreaksOff};
ghost use Rattle.report_text.specs.Report.{Reported};

use crate::report;
use std::alloc::Global;
use std::io;
use std::io::{Read, Write};
use streams::{read_first, write_whole};

/// Reads a journal of counts, of which it takes at most 32,768 bytes, and writes its report.
pub fn report_stream<I: Read, O: Write>(
    heap: Global,
    input: &mut I,
    output: &mut O,
) -> io::Result<()>
    ensures ok { OnOk result (Answers (Some 32768) Reported
        (I.remaining input.old) (I.remaining input.new)
        (O.contents output.old) (O.contents output.new)) }
    ensures err { OnErr result (BreaksOff (Some 32768) Reported
        (I.remaining input.old) (I.remaining input.new)
        (O.contents output.old) (O.contents output.new)) }
{
    let bytes = read_first(heap, input, 32_768)?;
    let text = report(heap, bytes.as_slice())?;
    write_whole(output, text.as_bytes())
}
