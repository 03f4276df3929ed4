// The worked values that the rules give, proved of the definitions that every contract rests on.
ghost use Rattle.nodes.specs.Worked.{WorkedValues};

/// The worked values that the rules give; it costs nothing to call.
pub fn worked_values()
    ensures { WorkedValues }
{}
