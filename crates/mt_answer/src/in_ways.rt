ghost use Rattle.std.specs.Prelude.{◌≡◌, ◌<◌, ◌≤◌, ◌⊎◌, ◌↔◌, length, true, IfErr, IfOk, IsTrue};
ghost use Rattle.mt_terms.specs.Best.{IsBest};
ghost use Rattle.mt_terms.specs.Places.{ArePlaces};
ghost use Rattle.mt_terms.specs.Stability.{stable};
ghost use Rattle.mt_terms.specs.Text.{name_of};
ghost use Rattle.mt_report.specs.declared.ended.TheConstants.{SET_ASIDE};
ghost use Rattle.mt_order_laws.specs.Reordered.{set_aside};
ghost use Rattle.mt_answer.specs.Answer.{all_proposals};
ghost use Rattle.mt_answer.specs.Ways.{IsAnswerInWays, IsAnswerOfNone, IsUnanswered};

use crate::answer::{is_stable, publish};
use crate::singles::match_singles;
use crate::ways::{Answer, Entering, Unanswered, Ways};
use mt_crew::Singles;
use mt_entry::{CoupleEnd, CouplesStage, Spent};
use mt_market::Roster;
use mt_orders::{Aside, Tries, enter_aside_in_orders, enter_in_orders};
use mt_ranks::Ranks;
use mt_reordered::set_aside;
use mt_report::{SET_ASIDE, published_aside};
use mt_terms::{IdText, Options};
use std::alloc::{AllocError, Global};
use std::sync::Wait;
use std::thread::Threads;

/// The couple that was entering when the budget was spent.
fn entering(roster: &Roster, spent: Spent) -> Entering
    requires { spent.couple < length roster.now.market.couples }
    ensures id { result.id ≡ name_of roster.now.names.couples spent.couple }
    ensures rounds { result.rounds ≡ spent.rounds }
    ensures comes_back { result.comes_back ≡ spent.comes_back }
{
    roster.is_of_a_file();
    Entering {
        id: IdText::new(roster.couple_id(spent.couple)),
        rounds: spent.rounds,
        comes_back: spent.comes_back,
    }
}

/// Whether the verifier calls a match stable if these couples are set aside.
fn is_stable_aside<T: Threads + Sync>(
    rt: &T,
    alloc: Global,
    roster: &Roster,
    aside: &Aside,
) -> Result<bool, AllocError>
    requires { ArePlaces roster.now.market aside.now.matched.places }
    ensures { IfOk result (λ b. IsTrue b
        ↔ IsTrue (stable (set_aside aside.now.couples.items roster.now.market) aside.now.matched.places)) }
{
    let others = set_aside(alloc, roster, &aside.couples)?;
    let ranks = Ranks::build(rt, alloc, &others)?;
    is_stable(rt, alloc, &others, &ranks, &aside.matched)
}

/// The text of the match of the others, once couples are set aside in the order in which the fewest are.
fn answer_aside<S: CouplesStage + Sync, T: Threads + Sync>(
    rt: &T,
    alloc: Global,
    roster: &Roster,
    singles: &Singles,
    tries: Tries,
) -> Result<Answer, AllocError>
    requires orders { (1 ≤ tries.orders) × (tries.orders ≤ 1000) }
    requires best { IsBest roster.now.market singles.now.matched.places }
    requires proposals { singles.now.proposals.items
        ≡ all_proposals roster.now singles.now.matched.places }
    ensures text { IfOk result (λ a. IsAnswerOfNone roster.now singles.now.matched.places
        tries.budget tries.orders true a.code a.text.items) }
    ensures code { IfOk result (λ a. a.code ≡ SET_ASIDE) }
{
    let aside = enter_aside_in_orders::<S, T>(rt, alloc, roster, &singles.matched, tries)?;
    if !is_stable_aside(rt, alloc, roster, &aside)? {
        unreachable!();
    }
    let text = published_aside(
        alloc,
        roster,
        &aside.matched,
        &singles.proposals,
        &aside.couples,
    )?;
    Ok(Answer {
        code: SET_ASIDE,
        text,
    })
}

/// The text of the market's match, as [`answer_to_market`](crate::answer_to_market) gives it, if the couples may enter in
/// several ways. They enter in the first order that ends within the budget. If none does and [`Ways::set_aside`] allows
/// it, couples are set aside one after another, until the rounds of the others end. The order is then the first in which
/// the fewest are set aside. Their members stay unplaced.
///
/// The errors are that the budget is spent in each order and no couple may be set aside, and want of memory.
pub fn answer_in_ways<S: CouplesStage + Sync, T: Threads + Wait + Sync>(
    rt: &T,
    alloc: Global,
    roster: &Roster,
    options: Options,
    ways: Ways,
) -> Result<Answer, Unanswered>
    requires workers { (1 ≤ options.workers) × (options.workers ≤ 64) }
    requires orders { (1 ≤ ways.orders) × (ways.orders ≤ 1000) }
    ensures text { IfOk result (λ a.
        IsAnswerInWays roster.now options.budget ways a.code a.text.items) }
    ensures published { IfOk result (λ a. (a.code ≡ 0) ⊎ (a.code ≡ SET_ASIDE)) }
    ensures unanswered { IfErr result (IsUnanswered roster.now options.budget ways) }
{
    roster.is_of_a_file();
    let ranks = Ranks::build(rt, alloc, roster)?;
    let singles = match_singles(rt, alloc, roster, &ranks, options.workers)?;
    let tries = Tries {
        budget: options.budget,
        orders: ways.orders,
    };
    match enter_in_orders::<S, T>(rt, alloc, roster, &ranks, &singles.matched, tries) {
        Ok(matched) => match publish(rt, alloc, roster, &ranks, &matched, &singles.proposals)? {
            Some(text) => Ok(Answer { code: 0, text }),
            None => unreachable!(),
        },
        Err(CoupleEnd::Memory) => Err(Unanswered::Memory),
        Err(CoupleEnd::BudgetSpent(spent)) => {
            if ways.set_aside {
                Ok(answer_aside::<S, T>(rt, alloc, roster, &singles, tries)?)
            } else {
                Err(Unanswered::BudgetSpent(entering(roster, spent)))
            }
        }
    }
}
