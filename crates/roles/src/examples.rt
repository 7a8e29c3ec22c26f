// Worked examples of translation.
ghost use Rattle.roles.specs.WorkedExamples.{WorkedExamples};

/// The eight worked examples, in print. There is nothing to compute.
pub fn worked_examples_hold()
    ensures { WorkedExamples }
{}
