// What the report's contract comes to, as the promise of a function that only carries it.
ghost use Rattle.report_text.specs.Report.{OneText};

/// For one input the contract allows one text.
pub fn one_text()
    ensures { OneText }
{}
