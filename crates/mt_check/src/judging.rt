ghost use Rattle.std.specs.Prelude.{◌≡◌, IfOk};
ghost use Rattle.mt_terms.specs.Places.{ArePlaces};
ghost use Rattle.mt_first_finding.specs.Findings.{finding_of};

use mt_first_finding::{Finding, first_differing};
use mt_market::Roster;
use mt_match_file::SubmittedMatch;
use mt_ranks::Ranks;
use mt_terms::Verdict;
use mt_verify::verify;
use std::alloc::{AllocError, Global};
use std::thread::Threads;

/// The finding on a match of the market.
pub(crate) fn judge<T: Threads + Sync>(
    rt: &T,
    alloc: Global,
    roster: &Roster,
    submitted: &SubmittedMatch,
) -> Result<Finding, AllocError>
    requires { ArePlaces roster.now.market submitted.now.places }
    ensures { IfOk result (λ finding. finding ≡ finding_of roster.now.market submitted.now) }
{
    roster.is_of_a_file();
    let ranks = Ranks::build(rt, alloc, roster)?;
    let verdict = verify(rt, alloc, roster, &ranks, submitted.matched())?;
    let differing = match verdict {
        Verdict::Stable => first_differing(alloc, roster, submitted)?,
        _ => None,
    };
    Ok(match differing {
        Some(row) => Finding::Differs(row),
        None => Finding::Of(verdict),
    })
}
