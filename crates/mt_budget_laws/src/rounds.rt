ghost use Rattle.mt_budget_laws.specs.Budget.{StageRounds, PremisesOfRounds};

/// A stage answers with exactly the rounds that it needs. Any budget of at least that number gives the same, and any
/// smaller one is spent.
pub fn stage_rounds()
    ensures { StageRounds }
{}

/// The premises of the laws of rounds hold in two of the example markets.
pub fn premises_of_rounds()
    ensures { PremisesOfRounds }
{}
