ghost use Rattle.std.specs.Prelude.{◌≡◌, ◌<◌, ◌-◌, length, IfOk};
ghost use Rattle.mt_terms.specs.Matching.{filled, filled_counts};
ghost use Rattle.mt_terms.specs.Places.{ArePlaces};
ghost use Rattle.mt_terms.specs.Registration.Accepted.{IsRegistration};
ghost use Rattle.mt_first_finding.specs.Findings.{first_differing};
ghost use Rattle.mt_terms.specs.Text.{all_filled, positions, unmatched};

use mt_market::Roster;
use mt_match_file::{Count, Counted, SubmittedMatch};
use mt_report::{filled_counts, filled_total, position_count, unmatched_count};
use mt_terms::{Match, ProgNo};
use std::alloc::{AllocError, Global};

/// The counts of a match, by its places and its market.
#[derive(Drop)]
pub struct Tally<'a> {
    roster: &'a Roster,
    matched: &'a Match,
    at_programs: Vec<u32>,
    unplaced: u32,
    posts: u64,
    free: u64,
    ghost of_a_file: { IsRegistration roster.now },
    ghost are_at_programs: { at_programs.items ≡ filled_counts roster.now.market matched.now.places },
    ghost are_unplaced: { unplaced ≡ unmatched matched.now.places },
    ghost are_posts: { posts ≡ positions roster.now.market },
    ghost are_free: { free ≡ positions roster.now.market - all_filled roster.now.market matched.now.places },
}

impl<'a> Tally<'a> {
    ghost use Rattle.mt_first_finding.specs.Findings.{first_differing_of, fits_count};
    ghost use Rattle.mt_first_finding.specs.View.{market_of, places_of};

    /// The counts of a match.
    pub fn of(alloc: Global, roster: &'a Roster, matched: &'a Match) -> Result<Self, AllocError>
        requires { ArePlaces roster.now.market matched.now.places }
        ensures market { IfOk result (λ tally. market_of tally ≡ roster.entry.now.market) }
        ensures places { IfOk result (λ tally. places_of tally ≡ matched.entry.now.places) }
    {
        let places = matched.places.as_slice();
        let at_programs = filled_counts(alloc, roster.programs() as usize, places)?;
        let posts = position_count(roster);
        let free = posts.saturating_sub(filled_total(&at_programs));
        Ok(Tally {
            roster,
            matched,
            at_programs,
            unplaced: unmatched_count(places),
            posts,
            free,
        })
    }

    /// How many applicants are placed at a program.
    pub fn filled(&self, program: ProgNo) -> u32
        requires { program < length (market_of self.now).programs }
        ensures { result ≡ filled (places_of self.now) program }
    {
        self.at_programs[program.index()]
    }

    /// Whether a record says the counts that these are.
    pub fn fits(&self, count: &Count) -> bool
        ensures { result ≡ fits_count (market_of self.now) (places_of self.now) count.now }
    {
        match *count {
            Count::Program {
                program,
                quota,
                filled,
            } => {
                program.0 < self.roster.programs()
                    && quota == u64::from(self.roster.quota(program))
                    && filled == u64::from(self.filled(program))
            }
            Count::Totals {
                applicants,
                unmatched,
                positions,
                unfilled,
            } => {
                let are_people = applicants == u64::from(self.roster.applicants())
                    && unmatched == u64::from(self.unplaced);
                are_people && positions == self.posts && unfilled == self.free
            }
        }
    }

    /// The first of these records that says other counts.
    fn first_differing(&self, counts: &[Counted]) -> Option<u64>
        ensures { result ≡ first_differing_of (market_of self.now) (places_of self.now) counts.now }
    {
        for counted in counts {
            if !self.fits(&counted.count) {
                return Some(counted.row);
            }
        }
        None
    }
}

/// The number of the first record of a match that says other counts than its places and its market.
pub fn first_differing(
    alloc: Global,
    roster: &Roster,
    submitted: &SubmittedMatch,
) -> Result<Option<u64>, AllocError>
    requires { ArePlaces roster.now.market submitted.now.places }
    ensures { IfOk result (λ row. row ≡ first_differing roster.now.market submitted.now) }
{
    let tally = Tally::of(alloc, roster, submitted.matched())?;
    Ok(tally.first_differing(submitted.counts()))
}
