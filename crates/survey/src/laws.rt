// What the survey's contract comes to, as the promise of a function that only carries it.
ghost use Rattle.survey.specs.Survey.{OneText};

/// For one input the contract allows one text.
pub fn one_text()
    ensures { OneText }
{}
