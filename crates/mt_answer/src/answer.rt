ghost use Rattle.std.specs.Prelude.{◌≡◌, ◌↔◌, ◌≤◌, length, not, IfErr, IfOk, IsTrue, MatchOption};
ghost use Rattle.mt_terms.specs.Best.{IsBest};
ghost use Rattle.mt_terms.specs.Places.{ArePlaces};
ghost use Rattle.mt_terms.specs.Stability.{stable};
ghost use Rattle.mt_ranks.specs.Ranked.{ranked_of};
ghost use Rattle.mt_answer.specs.Answer.{IsAnswerOfMarket, IsEnteredFrom, IsPublished};
ghost use Rattle.mt_answer.specs.Refusals.{IsRefusalBy};

use crate::singles::match_singles;
use mt_entry::{CoupleEnd, CouplesStage, RankedMarket};
use mt_market::Roster;
use mt_ranks::Ranks;
use mt_report::published;
use mt_terms::codes::{BUDGET_SPENT, OUT_OF_MEMORY};
use mt_terms::{Agent, Blocker, Match, Options, Refusal};
use mt_verify::{Verdict, verify};
use std::alloc::{AllocError, Global};
use std::sync::Wait;
use std::thread::Threads;

/// Whether the verifier calls a match stable.
pub(crate) fn is_stable<T: Threads + Sync>(
    rt: &T,
    alloc: Global,
    roster: &Roster,
    ranks: &Ranks,
    matched: &Match,
) -> Result<bool, AllocError>
    requires ranks { ranks.now ≡ ranked_of roster.now.market }
    requires places { ArePlaces roster.now.market matched.now.places }
    ensures { IfOk result (λ b. IsTrue b ↔ IsTrue (stable roster.now.market matched.now.places)) }
{
    match verify(rt, alloc, roster, ranks, matched)? {
        Verdict::Stable => Ok(true),
        Verdict::Unlisted(_) | Verdict::Over(_) => Ok(false),
        // Both kinds of agent are named, so that the proof sees of which type they are.
        Verdict::Blocks(
            Blocker {
                agent: Agent::Single(_) | Agent::Couple(_),
                ..
            },
        ) => Ok(false),
    }
}

/// The match once the couples have entered after a match of the singles.
fn with_couples<S: CouplesStage + Sync, T: Threads + Sync>(
    rt: &T,
    alloc: Global,
    roster: &Roster,
    ranks: &Ranks,
    singles: Match,
    budget: u32,
) -> Result<Match, Refusal>
    requires ranks { ranks.now ≡ ranked_of roster.now.market }
    requires best { IsBest roster.now.market singles.places }
    ensures entered { IfOk result (λ matched. IsEnteredFrom roster.now.market singles.places budget matched.places) }
    ensures refused { IfErr result (IsRefusalBy (IsAnswerOfMarket roster.now budget)) }
{
    roster.is_of_a_file();
    let market = RankedMarket { roster, ranks };
    match S::enter_all(rt, alloc, market, singles, budget) {
        Ok(entered) => Ok(entered.matched),
        Err(CoupleEnd::BudgetSpent(_)) => Err(Refusal::alone(BUDGET_SPENT)),
        Err(CoupleEnd::Memory) => Err(Refusal::alone(OUT_OF_MEMORY)),
    }
}

/// The text of a match, if the verifier calls it stable.
pub(crate) fn publish<T: Threads + Sync>(
    rt: &T,
    alloc: Global,
    roster: &Roster,
    ranks: &Ranks,
    matched: &Match,
    proposals: &[u32],
) -> Result<Option<Vec<u8>>, AllocError>
    requires ranks { ranks.now ≡ ranked_of roster.now.market }
    requires places { ArePlaces roster.now.market matched.now.places }
    requires proposals { length proposals.now ≡ length roster.now.market.programs }
    ensures { IfOk result (λ text. MatchOption text (IsTrue (not (stable roster.now.market matched.now.places)))
        (λ t. IsPublished roster.now matched.now.places proposals.now t.items)) }
{
    if !is_stable(rt, alloc, roster, ranks, matched)? {
        return Ok(None);
    }
    Ok(Some(published(alloc, roster, matched, proposals)?))
}

/// The text of the market's match, which is stable. `workers` workers match the singles, and the couples enter by the
/// stage `S` within the budget. The error is a refusal: the budget is spent, or memory was refused.
pub fn answer_to_market<S: CouplesStage + Sync, T: Threads + Wait + Sync>(
    rt: &T,
    alloc: Global,
    roster: &Roster,
    options: Options,
) -> Result<Vec<u8>, Refusal>
    requires { (1 ≤ options.workers) × (options.workers ≤ 64) }
    ensures text { IfOk result (λ text. IsAnswerOfMarket roster.now options.budget 0 text.items) }
    ensures refused { IfErr result (IsRefusalBy (IsAnswerOfMarket roster.now options.budget)) }
{
    roster.is_of_a_file();
    let Ok(ranks) = Ranks::build(rt, alloc, roster) else {
        return Err(Refusal::alone(OUT_OF_MEMORY));
    };
    let Ok(singles) = match_singles(rt, alloc, roster, &ranks, options.workers) else {
        return Err(Refusal::alone(OUT_OF_MEMORY));
    };
    let matched = with_couples::<S, T>(rt, alloc, roster, &ranks, singles.matched, options.budget)?;
    match publish(rt, alloc, roster, &ranks, &matched, &singles.proposals) {
        Ok(Some(text)) => Ok(text),
        Ok(None) => unreachable!(),
        Err(_) => Err(Refusal::alone(OUT_OF_MEMORY)),
    }
}
