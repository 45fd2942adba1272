ghost use Rattle.std.specs.Prelude.{◌≡◌, ◌≢◌, ◌<◌, length, IsTrue};
ghost use Rattle.mt_terms.specs.Registration.Accepted.{is_pair_below};
ghost use Rattle.mt_terms.specs.Lists.{has};
ghost use Rattle.mt_terms.specs.Market.{applicants};
ghost use Rattle.mt_verify.specs.Judged.{count_above, count_above_moved, front, has_post, is_known, takes_member, takes_pair};
ghost use Rattle.mt_verify.specs.View.{judged};

use crate::placed::{are_fewer_below, count_below};
use crate::verifier::Verifier;
use mt_terms::{AppNo, ProgNo};

impl Verifier<'_> {
    /// How many of those placed at the program are above a rank on its list.
    pub(super) fn count_above(&self, program: ProgNo, rank: u32) -> usize
        requires { program < length (judged self.now).registered.market.programs }
        ensures { result ≡ count_above (judged self.now) program rank }
    {
        count_below(self.placed_at(program), rank)
    }

    /// Whether the applicant is above a rank on the program's list.
    fn is_above(&self, program: ProgNo, applicant: AppNo, rank: u32) -> bool
        requires program { program < length (judged self.now).registered.market.programs }
        requires applicant { applicant < applicants (judged self.now).registered.market }
        ensures { result ≡ has (front (judged self.now) program rank) applicant }
    {
        match self.rank(program, applicant) {
            Some(own) => own < rank,
            None => false,
        }
    }

    /// How many would be at the program above a rank on its list, with an applicant moved to a place.
    pub(super) fn count_above_moved(
        &self,
        program: ProgNo,
        rank: u32,
        applicant: AppNo,
        place: Option<ProgNo>,
    ) -> usize
        requires program { program < length (judged self.now).registered.market.programs }
        requires applicant { applicant < applicants (judged self.now).registered.market }
        ensures { result ≡ count_above_moved (judged self.now) program rank applicant place }
    {
        let there = self.count_above(program, rank);
        if !self.is_above(program, applicant, rank) {
            return there;
        }
        let leaves = self.matched.place(applicant) == Some(program);
        let comes = place == Some(program);
        there - usize::from(leaves) + usize::from(comes)
    }

    /// Whether fewer of those placed at the program than its quota are above a rank on its list.
    pub(super) fn has_post(&self, program: ProgNo, rank: u32) -> bool
        requires { program < length (judged self.now).registered.market.programs }
        ensures { result ≡ has_post (judged self.now) program rank }
    {
        are_fewer_below(self.placed_at(program), rank, self.roster.quota(program))
    }

    /// Whether the member's place is none, or its program would choose it, with the member and its partner
    /// both moved to their places.
    fn takes_member(
        &self,
        member: AppNo,
        place: Option<ProgNo>,
        partner: AppNo,
        partner_place: Option<ProgNo>,
    ) -> bool
        requires member { member < applicants (judged self.now).registered.market }
        requires partner { partner < applicants (judged self.now).registered.market }
        requires apart { member ≢ partner }
        requires place { IsTrue (is_known (judged self.now) place) }
        ensures { result ≡ takes_member (judged self.now) member place partner partner_place }
    {
        let Some(program) = place else {
            return true;
        };
        match self.rank(program, member) {
            Some(rank) => {
                let above = self.count_above_moved(program, rank, partner, partner_place);
                above < self.roster.quota(program) as usize
            }
            None => false,
        }
    }

    /// Whether each program of the pair would choose the member that it sends there, with both members moved.
    pub(super) fn takes_pair(
        &self,
        first: AppNo,
        second: AppNo,
        pair: (Option<ProgNo>, Option<ProgNo>),
    ) -> bool
        requires first { first < applicants (judged self.now).registered.market }
        requires second { second < applicants (judged self.now).registered.market }
        requires apart { first ≢ second }
        requires pair { IsTrue (is_pair_below (length (judged self.now).registered.market.programs) pair) }
        ensures { result ≡ takes_pair (judged self.now) first second pair }
    {
        self.takes_member(first, pair.0, second, pair.1)
            && self.takes_member(second, pair.1, first, pair.0)
    }
}
