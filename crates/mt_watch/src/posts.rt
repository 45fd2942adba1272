ghost use Rattle.std.specs.Prelude.{◌≡◌, ◌<◌, length, IfNone, IfSome, IsTrue};
ghost use Rattle.mt_bits.specs.Members.{is_in};
ghost use Rattle.mt_assignment.specs.Blocking.{singles_quiet};
ghost use Rattle.mt_assignment.specs.Watched.{AreWatched};
ghost use Rattle.mt_watch.specs.Posts.{has_wanted_post, AreClosedFrom, IsOpenFrom};

use crate::watch::Watch;
use mt_assignment::Assignment;
use mt_bits::RankRow;
use mt_terms::ProgNo;
use rayon::prelude::*;
use std::thread::Threads;

/// From twice as many programs on, it is asked side by side whether they have a post for somebody who wants them more.
/// With fewer that takes less time than the start of a thread.
const LEAST_PROGRAMS: usize = 8192;

/// The first of these ranks on a program's list that isn't below a number, if the program has a post for it. If it has
/// none for this rank, it has none for a later one.
pub fn first_with_post(
    assignment: &Assignment<'_>,
    program: ProgNo,
    ranks: &RankRow<'_>,
    number: usize,
) -> Option<u32>
    requires { program < length assignment.now.market.programs }
    ensures some { IfSome result (IsOpenFrom assignment.now program (is_in ranks.now) number) }
    ensures none { IfNone result (AreClosedFrom assignment.now program (is_in ranks.now) number) }
{
    let rank = ranks.first_from(number)?;
    let is_on_list = (rank as usize) < assignment.ranking(program).len();
    if is_on_list && assignment.has_post(program, rank) {
        Some(rank)
    } else {
        None
    }
}

/// Whether the program has a post for a single that wants it more than what it has.
fn has_wanted_post(assignment: &Assignment<'_>, watch: &Watch, program: ProgNo) -> bool
    requires program { program < length assignment.now.market.programs }
    requires watched { AreWatched assignment.now watch.now.singles }
    ensures { result ≡ has_wanted_post assignment.now watch.now.singles program }
{
    first_with_post(assignment, program, &watch.singles(program), 0).is_some()
}

/// Whether no single blocks: no program has a post for one that is watched there.
pub fn are_singles_quiet<R: Threads + Sync>(
    rt: &R,
    assignment: &Assignment<'_>,
    watch: &Watch,
) -> bool
    requires { AreWatched assignment.now watch.now.singles }
    ensures { IsTrue result → IsTrue (singles_quiet assignment.now) }
{
    let wanted = (0..assignment.roster().programs())
        .into_par_iter()
        .with_min_len(LEAST_PROGRAMS)
        .find_first(
            rt,
            |number: &u32| -> bool
                requires { (number.now < length assignment.now.market.programs)
                    × AreWatched assignment.now watch.now.singles }
                ensures { result ≡ has_wanted_post assignment.entry.now watch.entry.now.singles number.now }
            { has_wanted_post(assignment, watch, ProgNo(*number)) },
        );
    wanted.is_none()
}
