ghost use Rattle.std.specs.Prelude.{◌≡◌, ◌<◌, length};
ghost use Rattle.mt_terms.specs.Market.{applicants, IsAgentOf};
ghost use Rattle.mt_terms.specs.Matching.{better, place_of};
ghost use Rattle.mt_terms.specs.declared.numbers.Agent.TheVariants.{Couple, Single};
ghost use Rattle.mt_verify.specs.Held.{held_option, rank_at};
ghost use Rattle.mt_verify.specs.View.{judged};

use crate::held::{position_of_pair, position_of_program};
use crate::verifier::Verifier;
use mt_terms::{Agent, AppNo, CoupleNo};

impl Verifier<'_> {
    /// The number from 0 of the option that the agent has, if it has one of its list.
    pub(crate) fn held_option(&self, agent: Agent) -> Option<u32>
        requires { IsAgentOf (judged self.now).registered.market agent }
        ensures { let j = judged self.now in
            result ≡ held_option j.registered.market j.places agent }
    {
        match agent {
            Agent::Single(applicant) => self.held_program(applicant),
            Agent::Couple(couple) => self.held_pair(couple),
        }
    }

    /// How many options the agent wants more than what it has. They are the first ones of its list.
    pub(crate) fn better_options(&self, agent: Agent) -> u32
        requires { IsAgentOf (judged self.now).registered.market agent }
        ensures { let j = judged self.now in
            result ≡ length (better j.registered.market j.places agent) }
    {
        match agent {
            Agent::Single(applicant) => self.better_programs(applicant),
            Agent::Couple(couple) => self.better_pairs(couple),
        }
    }

    /// The applicant's rank at its place, from 0, if it is placed and its program lists it.
    pub(crate) fn rank_at_place(&self, applicant: AppNo) -> Option<u32>
        requires { applicant < applicants (judged self.now).registered.market }
        ensures { let j = judged self.now in
            result ≡ rank_at j.registered.market applicant (place_of j.places applicant) }
    {
        let program = self.matched.place(applicant)?;
        self.rank(program, applicant)
    }

    /// The place from 0 of the single's program on its list.
    fn held_program(&self, applicant: AppNo) -> Option<u32>
        requires { applicant < applicants (judged self.now).registered.market }
        ensures { let j = judged self.now in
            result ≡ held_option j.registered.market j.places (Single applicant) }
    {
        let place = self.matched.place(applicant);
        let option = position_of_program(self.roster.single_list(applicant), place)?;
        Some(option as u32)
    }

    /// The place from 0 of the couple's pair on its list.
    fn held_pair(&self, couple: CoupleNo) -> Option<u32>
        requires { couple < length (judged self.now).registered.market.couples }
        ensures { let j = judged self.now in
            result ≡ held_option j.registered.market j.places (Couple couple) }
    {
        let (first, second) = self.roster.members(couple);
        let places = (self.matched.place(first), self.matched.place(second));
        let option = position_of_pair(self.roster.couple_list(couple), places)?;
        Some(option as u32)
    }

    /// How many programs the single wants more than its place.
    fn better_programs(&self, applicant: AppNo) -> u32
        requires { applicant < applicants (judged self.now).registered.market }
        ensures { let j = judged self.now in
            result ≡ length (better j.registered.market j.places (Single applicant)) }
    {
        match self.held_program(applicant) {
            Some(option) => option,
            None => self.roster.single_list(applicant).len() as u32,
        }
    }

    /// How many pairs the couple wants more than its two places.
    fn better_pairs(&self, couple: CoupleNo) -> u32
        requires { couple < length (judged self.now).registered.market.couples }
        ensures { let j = judged self.now in
            result ≡ length (better j.registered.market j.places (Couple couple)) }
    {
        match self.held_pair(couple) {
            Some(option) => option,
            None => self.roster.couple_list(couple).len() as u32,
        }
    }
}
