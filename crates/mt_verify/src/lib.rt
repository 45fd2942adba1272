//! Whether a match of a residency market is stable, or else the first finding against it. Any program may have made
//! the match.
#![tactic(auto)]

ghost use Rattle.std.specs.Prelude.{◌≡◌, IfOk};
ghost use Rattle.mt_terms.specs.Places.{ArePlaces};
ghost use Rattle.mt_terms.specs.Verdict.{verdict_of};
ghost use Rattle.mt_ranks.specs.Ranked.{ranked_of};
ghost use Rattle.mt_verify.specs.Verdicts.{TellsStable};

mod held;
mod listed;
mod placed;
mod prospect;
mod tables;
mod verifier;

pub use crate::prospect::Prospect;
pub use crate::tables::MatchTables;
use mt_market::Roster;
use mt_ranks::Ranks;
use mt_terms::Match;
pub use mt_terms::{Blocker, Verdict};
use std::alloc::{AllocError, Global};
use std::thread::Threads;

/// Whether a match is stable, or else the first finding against it. First come applicants whose place isn't allowed,
/// by number, and then programs over their quotas, by number. Last come agents that block, by the number of the
/// single or of the couple's first member. Such a finding has the agent's first better option that would be taken.
/// Any program may have made the match. The only error is want of memory.
///
/// Without couples this is the stability of Gusfield and Irving 1989 for hospitals and residents. How a couple blocks
/// is this project's own rule.
pub fn verify<R: Threads + Sync>(
    rt: &R,
    alloc: Global,
    roster: &Roster,
    ranks: &Ranks,
    matched: &Match,
) -> Result<Verdict, AllocError>
    requires places { ArePlaces roster.now.market matched.now.places }
    requires ranks { ranks.now ≡ ranked_of roster.now.market }
    ensures verdict { IfOk result (λ v. v ≡ verdict_of roster.now.market matched.now.places) }
    ensures stable { IfOk result (TellsStable roster.now.market matched.now.places) }
{
    roster.is_of_a_file();
    let tables = MatchTables::new(rt, alloc, roster, ranks, matched)?;
    Ok(tables.verdict(rt))
}
