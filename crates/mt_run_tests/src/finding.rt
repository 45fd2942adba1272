//! What the verifier says of a match, beside the plain form.
ghost use Rattle.std.specs.Prelude.{◌≡◌};
ghost use Rattle.mt_ranks.specs.Ranked.{ranked_of};

use crate::expect::same_for;
use crate::plain::verdict::plain_verdict;
use mt_ranks::Ranks;
use mt_roster::Roster;
use mt_samples::places::are_places;
use mt_terms::{Match, Places, ProgNo, Verdict};
use mt_verify::verify;
use std::alloc::{AllocError, Global};
use std::process::Abort;
use std::thread::Threads;

/// The verifier's verdict on the match with these places, which is the plain one.
pub(crate) fn plain_finding<R: Abort + Threads + Sync>(
    rt: &R,
    alloc: Global,
    of: &str,
    roster: &Roster,
    ranks: &Ranks,
    places: Vec<Option<ProgNo>>,
) -> Result<Verdict, AllocError>
    requires { ranks.now ≡ ranked_of roster.now.market }
{
    assert!(rt; are_places(roster, places.as_slice()));
    let matched = Match {
        places: Places::new(places),
    };
    let verdict = verify(rt, alloc, roster, ranks, &matched)?;
    let plain = plain_verdict(roster, matched.places.as_slice());
    same_for(rt, &verdict, &plain, of);
    Ok(verdict)
}
