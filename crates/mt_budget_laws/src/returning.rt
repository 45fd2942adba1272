ghost use Rattle.mt_budget_laws.specs.Returning.{ReturningInExamples, ReturningNeverEnds, ReturningStageNeverEnds};

/// If a state of the rounds comes back, the rounds end within no budget.
pub fn returning_never_ends()
    ensures { ReturningNeverEnds }
{}

/// If a state of a couple's rounds comes back, and the couples before it enter within some budget, no budget is enough
/// for the stage.
pub fn returning_stage_never_ends()
    ensures { ReturningStageNeverEnds }
{}

/// A state comes back in the unstable market. A match that comes back with another work list is no such state.
pub fn returning_in_examples()
    ensures { ReturningInExamples }
{}
