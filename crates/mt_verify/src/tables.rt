ghost use Rattle.std.specs.Prelude.{◌≡◌, ◌≢◌, ◌<◌, length, IfOk, Some};
ghost use Rattle.mt_terms.specs.Market.{applicants, IsAgentOf};
ghost use Rattle.mt_terms.specs.Matching.{better, couple_placement, place_of, placed_ranks, send, single_placement};
ghost use Rattle.mt_terms.specs.Places.{ArePlaces};
ghost use Rattle.mt_terms.specs.Verdict.{verdict_of};
ghost use Rattle.mt_ranks.specs.Ranked.{ranked_of};
ghost use Rattle.mt_verify.specs.Held.{held_option, rank_at};
ghost use Rattle.mt_verify.specs.Prospects.{prospect};

use crate::placed::placed_by_program;
use crate::prospect::Prospect;
use crate::verifier::Verifier;
use mt_market::Roster;
use mt_ranks::Ranks;
use mt_terms::{Agent, AppNo, Match, ProgNo, Verdict};
use std::alloc::{AllocError, Global};
use std::marker::Model;
use std::thread::Threads;

/// A match beside its market, with the ranks of those placed at each program. It says how an applicant would fare.
#[derive(Drop)]
pub struct MatchTables<'a> {
    verifier: Verifier<'a>,
}

impl<'a> Model for MatchTables<'a> {
    ghost use Rattle.mt_verify.specs.Judged.{Judged};
    ghost use Rattle.mt_verify.specs.View.{judged};

    ghost Value = { Judged };

    ghost view = { λ t. judged t.verifier };
}

impl<'a> MatchTables<'a> {
    /// The tables of a match of the market. The only error is want of memory.
    pub fn new<R: Threads + Sync>(
        rt: &R,
        alloc: Global,
        roster: &'a Roster,
        ranks: &'a Ranks<'a>,
        matched: &'a Match,
    ) -> Result<Self, AllocError>
        requires ranks { ranks.now ≡ ranked_of roster.now.market }
        requires places { ArePlaces roster.now.market matched.now.places }
        ensures registered { IfOk result (λ t. t.registered ≡ roster.now) }
        ensures places { IfOk result (λ t. t.places ≡ matched.now.places) }
    {
        let placed = placed_by_program(rt, alloc, roster, matched)?;
        let verifier = Verifier {
            roster,
            ranks,
            matched,
            placed,
        };
        Ok(MatchTables { verifier })
    }

    /// The market, with its ids.
    pub fn roster(&self) -> &'a Roster
        ensures { result.now ≡ self.now.registered }
    {
        self.verifier.roster
    }

    /// The match.
    pub fn matched(&self) -> &'a Match
        ensures places { result.now.places ≡ self.now.places }
        ensures fits { ArePlaces self.now.registered.market self.now.places }
    {
        self.verifier.matched
    }

    /// The first finding against the match, or that it is stable.
    pub(crate) fn verdict<R: Threads + Sync>(&self, rt: &R) -> Verdict
        ensures { result ≡ verdict_of self.now.registered.market self.now.places }
    {
        self.verifier.verdict(rt)
    }

    /// The ranks on the program's list of those that are placed there, in rising order.
    pub fn placed_at(&self, program: ProgNo) -> &[u32]
        requires { program < length self.now.registered.market.programs }
        ensures { result.now ≡ placed_ranks self.now.registered.market self.now.places program }
    {
        self.verifier.placed_at(program)
    }

    /// The number from 0 of the option that the agent has, if it has one of its list.
    pub fn held_option(&self, agent: Agent) -> Option<u32>
        requires { IsAgentOf self.now.registered.market agent }
        ensures { result ≡ held_option self.now.registered.market self.now.places agent }
    {
        self.verifier.held_option(agent)
    }

    /// How many options the agent wants more than what it has. They are the first ones of its list.
    pub fn better_options(&self, agent: Agent) -> u32
        requires { IsAgentOf self.now.registered.market agent }
        ensures { result ≡ length (better self.now.registered.market self.now.places agent) }
    {
        self.verifier.better_options(agent)
    }

    /// The applicant's rank at its place, from 0, if it is placed and its program lists it.
    pub fn rank_at_place(&self, applicant: AppNo) -> Option<u32>
        requires { applicant < applicants self.now.registered.market }
        ensures { result ≡ rank_at self.now.registered.market applicant (place_of self.now.places applicant) }
    {
        self.verifier.rank_at_place(applicant)
    }

    /// How a single would fare at a program that it is sent to, or none if the program doesn't list it.
    pub fn single_prospect(&self, applicant: AppNo, program: ProgNo) -> Option<Prospect>
        requires applicant { applicant < applicants self.now.registered.market }
        requires program { program < length self.now.registered.market.programs }
        ensures { let moved = send (single_placement applicant program) self.now.places in
            result ≡ prospect self.now.registered.market moved program applicant }
    {
        self.verifier.single_prospect(applicant, program)
    }

    /// How a couple's member would fare at a program that it is sent to, its partner sent to a place of its own. None
    /// if the program doesn't list the member.
    pub fn member_prospect(
        &self,
        member: AppNo,
        program: ProgNo,
        partner: AppNo,
        partner_place: Option<ProgNo>,
    ) -> Option<Prospect>
        requires member { member < applicants self.now.registered.market }
        requires program { program < length self.now.registered.market.programs }
        requires partner { partner < applicants self.now.registered.market }
        requires apart { member ≢ partner }
        ensures { let sent = couple_placement member partner (Some program, partner_place) in
            result ≡ prospect self.now.registered.market (send sent self.now.places) program member }
    {
        self.verifier
            .member_prospect(member, program, partner, partner_place)
    }
}
