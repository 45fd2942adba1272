ghost use Rattle.std.specs.Prelude.{◌≡◌, ◌<◌, length, slice_get, true, None, Some};
ghost use Rattle.mt_terms.specs.Market.{agent_of, applicants};
ghost use Rattle.mt_terms.specs.declared.numbers.Agent.TheVariants.{Couple, Single};
ghost use Rattle.mt_verify.specs.Blocking.{blocker_led_by, has_finding, leads_blocker, rank_if};
ghost use Rattle.mt_verify.specs.Judged.{first_blocker, first_found, first_taken, first_unlisted};
ghost use Rattle.mt_verify.specs.View.{judged};

use crate::verifier::Verifier;
use mt_ranks::PackedLive;
use mt_terms::{Agent, AppNo, Blocker, CoupleNo, ProgNo};

/// The rank in the live entry with a number, if there is one and it is of this program.
fn rank_if(live: &[PackedLive], number: usize, program: ProgNo) -> Option<u32>
    ensures { result ≡ rank_if (slice_get live.now number) program }
{
    let entry = live.get(number)?.unpacked();
    if entry.program == program {
        Some(entry.rank)
    } else {
        None
    }
}

impl Verifier<'_> {
    /// The place on the single's list of its first better program that would take it.
    fn first_program(&self, applicant: AppNo) -> Option<u32>
        requires { applicant < applicants (judged self.now).registered.market }
        ensures { result ≡ first_taken (judged self.now) (Single applicant) }
    {
        let place = self.matched.place(applicant);
        let live = self.ranks.live(applicant);
        let mut next = 0;
        for (option, program) in self.roster.single_list(applicant).iter().enumerate() {
            if place == Some(*program) {
                return None;
            }
            if let Some(rank) = rank_if(live, next, *program) {
                if self.has_post(*program, rank) {
                    return Some(option as u32);
                }
                next += 1;
            }
        }
        None
    }

    /// Whether a program that the single wants more would take it, or its place isn't allowed. Its list is read once, beside
    /// its live list.
    fn single_has_finding(&self, single: AppNo) -> bool
        requires applicant { single < applicants (judged self.now).registered.market }
        requires single { agent_of (judged self.now).registered.market single ≡ Single single }
        ensures { let j = judged self.now in result ≡ has_finding j.registered.market j.places single }
    {
        let place = self.matched.place(single);
        let live = self.ranks.live(single);
        let mut next = 0;
        for program in self.roster.single_list(single) {
            let rank = rank_if(live, next, *program);
            if place == Some(*program) {
                return rank.is_none();
            }
            if let Some(rank) = rank {
                if self.has_post(*program, rank) {
                    return true;
                }
                next += 1;
            }
        }
        place.is_some()
    }

    /// Whether the applicant leads an agent that blocks, or its place isn't allowed.
    pub(super) fn has_finding(&self, applicant: AppNo) -> bool
        requires { applicant < applicants (judged self.now).registered.market }
        ensures { let j = judged self.now in result ≡ has_finding j.registered.market j.places applicant }
    {
        match self.roster.agent_of(applicant) {
            Agent::Single(_) => self.single_has_finding(applicant),
            Agent::Couple(_) => self.leads_blocker(applicant) || self.is_unlisted(applicant),
        }
    }

    /// The place on the couple's list of its first better pair that would be taken.
    fn first_pair(&self, couple: CoupleNo) -> Option<u32>
        requires { couple < length (judged self.now).registered.market.couples }
        ensures { result ≡ first_taken (judged self.now) (Couple couple) }
    {
        let (first, second) = self.roster.members(couple);
        let places = (self.matched.place(first), self.matched.place(second));
        for (option, pair) in self.roster.couple_list(couple).iter().enumerate() {
            if places == *pair {
                return None;
            }
            if self.takes_pair(first, second, *pair) {
                return Some(option as u32);
            }
        }
        None
    }

    /// The agent that the applicant leads, if that agent blocks, with the first option with which it does. A single
    /// leads itself, and a first member its couple.
    fn blocker_led_by(&self, applicant: AppNo) -> Option<Blocker>
        requires { applicant < applicants (judged self.now).registered.market }
        ensures { let j = judged self.now in
            result ≡ blocker_led_by j.registered.market j.places applicant }
    {
        match self.roster.agent_of(applicant) {
            Agent::Single(_) => {
                let option = self.first_program(applicant)?;
                Some(Blocker {
                    agent: Agent::Single(applicant),
                    option,
                })
            }
            Agent::Couple(couple) => {
                if self.roster.members(couple).0.index() != applicant.index() {
                    return None;
                }
                let option = self.first_pair(couple)?;
                Some(Blocker {
                    agent: Agent::Couple(couple),
                    option,
                })
            }
        }
    }

    /// Whether the applicant leads an agent that blocks.
    pub(super) fn leads_blocker(&self, applicant: AppNo) -> bool
        requires { applicant < applicants (judged self.now).registered.market }
        ensures { let j = judged self.now in
            result ≡ leads_blocker j.registered.market j.places applicant }
    {
        self.blocker_led_by(applicant).is_some()
    }

    /// The first agent that blocks, by the number of the single or of the couple's first member, with the
    /// first option with which it does. The first applicant at which anything was found leads it.
    pub(super) fn first_blocker(&self, found: AppNo) -> Option<Blocker>
        requires listed { first_unlisted (judged self.now) ≡ None }
        requires found { first_found (judged self.now) true ≡ Some found }
        ensures { result ≡ first_blocker (judged self.now) }
    {
        self.blocker_led_by(found)
    }
}
