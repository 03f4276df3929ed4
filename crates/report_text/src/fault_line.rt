// The line of a fault.
ghost use Rattle.std.specs.Prelude.{Some, Err};
ghost use Rattle.report_text.specs.Report.{fault_text};

use journal::LoadFault;
use std::fmt;

// Its number, its byte place, the refusal inside it, and the store's cause inside that.
#[derive(Clone, Copy)]
pub(crate) struct FaultLine(pub LoadFault);

impl fmt::Display for FaultLine {
    ghost output = { λ line. Some (fault_text (Err line.0)) };

    fn fmt<W: fmt::Write>(&self, f: &mut fmt::Formatter<W>) -> fmt::Result {
        let LoadFault { fault, place } = self.0;
        let number = fault.number();
        let refusal = fault.refusal();
        let cause = fault.cause();
        writeln!(f, "fault {number} {place} {refusal} {cause}")
    }
}
