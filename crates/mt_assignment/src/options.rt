ghost use Rattle.std.specs.Prelude.{◌≡◌, ◌<◌, ◌≤◌, length, Contains, IsTrue, Some};
ghost use Rattle.std.specs.Option.{option_map};
ghost use Rattle.mt_terms.specs.Lists.{has};
ghost use Rattle.mt_terms.specs.Market.{applicants, couple_of, IsAgentOf};
ghost use Rattle.mt_terms.specs.Matching.{at, single_placement};
ghost use Rattle.mt_terms.specs.Stability.{would_be_taken};
ghost use Rattle.mt_terms.specs.declared.numbers.Agent.TheVariants.{Single, Couple};
ghost use Rattle.mt_assignment.specs.Assigned.{chooses, has_post, is_ahead, pair_of, taken_by, AreSent, IsAssigned};
ghost use Rattle.mt_ranks.specs.Ranked.{rank_of};
ghost use Rattle.mt_assignment.specs.Moves.{coming, leaving, opens, seated, some_has};
ghost use Rattle.mt_assignment.specs.Watched.{better_pairs, opens_between};

use crate::assignment::Assignment;
use mt_stage_tables::Pair;
use mt_terms::{Agent, AppNo, CoupleNo, ProgNo};

/// Whether the program is one of these, which are few.
fn has_program(programs: &[ProgNo], program: ProgNo) -> bool
    ensures { result ≡ has programs.now program }
{
    for other in programs {
        if *other == program {
            return true;
        }
    }
    false
}

/// Whether the place is one of these programs.
fn is_one_of(place: Option<ProgNo>, programs: &[ProgNo]) -> bool
    ensures { result ≡ some_has programs.now place }
{
    match place {
        Some(program) => has_program(programs, program),
        None => false,
    }
}

impl<'a> Assignment<'a> {
    /// Whether the applicant has a rank below this one at the program.
    fn is_ahead(&self, program: ProgNo, applicant: AppNo, rank: u32) -> bool
        requires { applicant < applicants self.now.market }
        ensures { result ≡ is_ahead self.now program rank applicant }
    {
        match self.rank(program, applicant) {
            Some(other) => other < rank,
            None => false,
        }
    }

    /// How many of those that are sent somewhere have a rank below this one at the program: of those that are there now,
    /// and of those that are sent there. An applicant of this rank is none of them.
    fn movers_ahead(
        &self,
        program: ProgNo,
        applicant: AppNo,
        rank: u32,
        sent: &[(AppNo, Option<ProgNo>)],
    ) -> (usize, usize)
        requires rank { rank_of self.now.market program applicant ≡ Some rank }
        requires sent { AreSent self.now.market sent.now }
        ensures leaving { result.0 ≡ leaving self.now program rank sent.now }
        ensures coming { result.1 ≡ coming self.now program rank sent.now }
    {
        let mut leaving = 0;
        let mut coming = 0;
        for seat in sent {
            if self.place(seat.0) == Some(program) && self.is_ahead(program, seat.0, rank) {
                leaving += 1;
            }
            if seat.0 != applicant
                && seat.1 == Some(program)
                && self.is_ahead(program, seat.0, rank)
            {
                coming += 1;
            }
        }
        (leaving, coming)
    }

    /// Whether the program has a post for an applicant of this rank there, once everybody is sent.
    fn has_post_after(
        &self,
        program: ProgNo,
        applicant: AppNo,
        rank: u32,
        sent: &[(AppNo, Option<ProgNo>)],
    ) -> bool
        requires program { program < length self.now.market.programs }
        requires rank { rank_of self.now.market program applicant ≡ Some rank }
        requires sent { AreSent self.now.market sent.now }
        ensures { result ≡ has_post (seated self.now sent.now) program rank }
    {
        let (leaving, coming) = self.movers_ahead(program, applicant, rank, sent);
        let posts = self.quota(program) as usize + leaving;
        self.has_fewer_ahead(program, rank, posts.saturating_sub(coming))
    }

    /// Whether the program has a post for a rank, by those that are there.
    pub fn has_post(&self, program: ProgNo, rank: u32) -> bool
        requires program { program < length self.now.market.programs }
        ensures post { result ≡ has_post self.now program rank }
        ensures assigned { IsAssigned self.now }
    {
        self.has_fewer_ahead(program, rank, self.quota(program) as usize)
    }

    /// Whether the program chooses an applicant that is sent there, once everybody is sent.
    fn is_chosen(&self, program: ProgNo, applicant: AppNo, sent: &[(AppNo, Option<ProgNo>)]) -> bool
        requires there { Contains sent.now (applicant, Some program) }
        requires sent { AreSent self.now.market sent.now }
        ensures { result ≡ chooses (seated self.now sent.now) program applicant }
    {
        match self.rank(program, applicant) {
            Some(rank) => self.has_post_after(program, applicant, rank, sent),
            None => false,
        }
    }

    /// Whether the program chooses an applicant that is there.
    pub(crate) fn is_kept(&self, program: ProgNo, applicant: AppNo) -> bool
        requires applicant { applicant < applicants self.now.market }
        requires there { IsTrue (at self.now.places program applicant) }
        ensures { result ≡ chooses self.now program applicant }
    {
        match self.rank(program, applicant) {
            Some(rank) => self.has_post(program, rank),
            None => false,
        }
    }

    /// Whether each program that somebody is sent to chooses whom it is sent.
    fn would_be_taken(&self, sent: &[(AppNo, Option<ProgNo>)]) -> bool
        requires { AreSent self.now.market sent.now }
        ensures { result ≡ would_be_taken self.now.market self.now.places sent.now }
    {
        for (applicant, place) in sent {
            if let Some(program) = place {
                if !self.is_chosen(*program, *applicant, sent) {
                    return false;
                }
            }
        }
        true
    }

    /// The program that the single takes: the first on its list before its place that would take it.
    pub fn first_program(&self, single: AppNo) -> Option<ProgNo>
        requires { single < applicants self.now.market }
        ensures { option_map (single_placement single) result ≡ taken_by self.now (Single single) }
    {
        for entry in self.better_live(single) {
            let entry = entry.unpacked();
            if self.has_post(entry.program, entry.rank) {
                return Some(entry.program);
            }
        }
        None
    }

    /// The pairs that the couple wants more than what it has.
    pub fn better_pairs(&self, couple: CoupleNo) -> &'a [Pair]
        requires { couple < length self.now.market.couples }
        ensures list { result.now ≡ better_pairs self.now couple }
        ensures assigned { IsAssigned self.now }
    {
        let (first, second) = self.members(couple);
        let own = (self.place(first), self.place(second));
        let pairs = self.roster().couple_list(couple);
        for (end, pair) in pairs.iter().enumerate() {
            if own.0 == pair.0 && own.1 == pair.1 {
                return &pairs[..end];
            }
        }
        pairs
    }

    /// The pair that the couple takes: the first of the `better` pairs before its own that would be taken.
    pub fn first_pair(&self, couple: CoupleNo, better: usize) -> Option<Pair>
        requires couple { couple < length self.now.market.couples }
        requires better { better ≡ length (better_pairs self.now couple) }
        ensures { option_map (pair_of self.now couple) result ≡ taken_by self.now (Couple couple) }
    {
        let (first, second) = self.members(couple);
        for pair in &self.roster().couple_list(couple)[..better] {
            if self.would_be_taken(&[(first, pair.0), (second, pair.1)]) {
                return Some(*pair);
            }
        }
        None
    }

    /// Whether the single has a better program, out of these, that would take it.
    fn single_opens(&self, single: AppNo, programs: &[ProgNo]) -> bool
        requires { single < applicants self.now.market }
        ensures { result ≡ opens self.now programs.now (Single single) }
    {
        for entry in self.better_live(single) {
            let entry = entry.unpacked();
            if has_program(programs, entry.program) && self.has_post(entry.program, entry.rank) {
                return true;
            }
        }
        false
    }

    /// Whether the couple has a better pair at one of these programs that would be taken.
    fn couple_opens(&self, couple: CoupleNo, programs: &[ProgNo]) -> bool
        requires { couple < length self.now.market.couples }
        ensures { result ≡ opens self.now programs.now (Couple couple) }
    {
        let (first, second) = self.members(couple);
        for pair in self.better_pairs(couple) {
            if (is_one_of(pair.0, programs) || is_one_of(pair.1, programs))
                && self.would_be_taken(&[(first, pair.0), (second, pair.1)])
            {
                return true;
            }
        }
        false
    }

    /// Whether the couple has a pair at the program that would be taken, of those from one index on its list up to
    /// another.
    pub fn opens_between(&self, couple: CoupleNo, program: ProgNo, from: usize, end: usize) -> bool
        requires couple { couple < length self.now.market.couples }
        requires from { from ≤ end }
        requires end { end ≤ length (couple_of self.now.market couple).pairs }
        ensures { result ≡ opens_between self.now couple program from end }
    {
        let (first, second) = self.members(couple);
        for pair in &self.roster().couple_list(couple)[from..end] {
            if (pair.0 == Some(program) || pair.1 == Some(program))
                && self.would_be_taken(&[(first, pair.0), (second, pair.1)])
            {
                return true;
            }
        }
        false
    }

    /// Whether the agent has a better option at one of these programs that would be taken.
    pub fn opens(&self, agent: &Agent, programs: &[ProgNo]) -> bool
        requires { IsAgentOf self.now.market agent.now }
        ensures { result ≡ opens self.now programs.now agent.now }
    {
        match agent {
            Agent::Single(applicant) => self.single_opens(*applicant, programs),
            Agent::Couple(couple) => self.couple_opens(*couple, programs),
        }
    }
}
