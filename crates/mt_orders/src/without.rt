ghost use Rattle.std.specs.Prelude.{◌≡◌, IfOk};
ghost use Rattle.mt_terms.specs.Best.{IsBest};
ghost use Rattle.mt_order_laws.specs.Aside.{aside_in_turn};
ghost use Rattle.mt_orders.specs.Without.{OthersEndIn};

use crate::tried::copied;
use mt_entry::{CouplesStage, RankedMarket, Reached};
use mt_market::Roster;
use mt_ranks::Ranks;
use mt_reordered::{all_couples, reordered};
use mt_terms::{CoupleNo, Match};
use std::alloc::{AllocError, Global};
use std::thread::Threads;

/// A match, and the couples that are set aside in it, in the order in which they were.
#[derive(Drop)]
pub struct Aside {
    pub matched: Match,
    pub couples: Vec<CoupleNo>,
}

/// Lets the couples enter a match of the singles as `enter_all` does, in the order of registration. If the rounds of a
/// couple don't end within what is left of the budget, it is set aside. The next couples go on from the match before its
/// entry, with what was left then. That gives what beginning anew without it gives. The only error is want of memory.
pub(crate) fn enter_aside<S: CouplesStage + Sync, T: Threads + Sync>(
    rt: &T,
    alloc: Global,
    roster: &Roster,
    singles: &Match,
    budget: u32,
) -> Result<Aside, AllocError>
    requires { IsBest roster.now.market singles.now.places }
    ensures aside { IfOk result (λ a.
        a.couples.items ≡ aside_in_turn roster.now.market singles.now.places budget) }
    ensures ends { IfOk result (λ a.
        OthersEndIn roster.now.market singles.now.places budget a.couples.items a.matched.places) }
{
    roster.is_of_a_file();
    let ranks = Ranks::build(rt, alloc, roster)?;
    let mut order = all_couples(alloc, roster.couples())?;
    let mut aside = Vec::new(alloc);
    let matched = copied(alloc, singles)?;
    let mut reached = Reached {
        matched,
        entered: 0,
        left: budget,
    };
    'turns: loop {
        // The couples that are set aside come last, so the rank tables stay as they are.
        let others = order.len() - aside.len();
        let market = reordered(alloc, roster, &order)?;
        let ranked = RankedMarket {
            roster: &market,
            ranks: &ranks,
        };
        reached = S::enter_from(rt, alloc, ranked, reached, others as u32)?;
        let place = reached.entered as usize;
        if place == others {
            return Ok(Aside {
                matched: reached.matched,
                couples: aside,
            });
        }
        let couple = order.remove(place);
        order.push(couple)?;
        aside.push(couple)?;
    }
}
