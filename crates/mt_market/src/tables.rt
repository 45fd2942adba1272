ghost use Rattle.std.specs.Prelude.{◌≡◌, ◌<◌, ◌≤◌, length, slice_index_or};
ghost use Rattle.mt_terms.specs.Registration.Accepted.{IsRegistration};
ghost use Rattle.mt_terms.specs.Market.{applicants, program_of, list_of, couple_of, agent_of};
ghost use Rattle.mt_terms.specs.Text.{name_of};
ghost use Rattle.mt_market.specs.Tables.{registered_of, AreTables};

use mt_flat::{ChunkedLists, FlatLists};
use mt_terms::{Agent, AppNo, CoupleNo, ProgNo};
use std::marker::Model;

/// What a market says by the numbers of applicants.
#[derive(Drop)]
pub struct ByApplicants {
    /// The applicants that each program lists, the most wanted first.
    pub rankings: ChunkedLists<AppNo>,
    /// The two members of each couple, in the order of its pairs.
    pub members: Vec<(AppNo, AppNo)>,
}

/// What a market says by the numbers of programs.
#[derive(Drop)]
pub struct ByPrograms {
    /// The programs that each applicant lists as a single, the most wanted first.
    pub lists: ChunkedLists<ProgNo>,
    /// The pairs that each couple lists, the most wanted first.
    pub pairs: ChunkedLists<(Option<ProgNo>, Option<ProgNo>)>,
}

/// A market by number: programs with quotas and rank order lists, singles with theirs, and couples with their members
/// and lists of pairs. It also has the ids of all.
pub struct Tables {
    /// The posts of each program.
    pub quotas: Vec<u32>,
    /// The agent that each applicant belongs to.
    pub agents: Vec<Agent>,
    pub by_applicants: ByApplicants,
    pub by_programs: ByPrograms,
    /// The ids of the programs.
    pub program_ids: FlatLists<u8>,
    /// The ids of the applicants.
    pub applicant_ids: FlatLists<u8>,
    /// The ids of the couples.
    pub couple_ids: FlatLists<u8>,
}

impl Drop for Tables {
    fn drop(self) {
        let Tables {
            quotas: _,
            agents: _,
            by_applicants: _,
            by_programs: _,
            program_ids: _,
            applicant_ids: _,
            couple_ids: _,
        } = self;
    }
}

/// A market with its ids: programs with quotas and rank order lists, singles with theirs, and couples with
/// lists of pairs. Numbers are dense, by order of registration from 0. It is the market of a file that was accepted.
#[derive(Drop)]
pub struct Roster {
    tables: Tables,
}

impl Model for Roster {
    ghost use Rattle.mt_terms.specs.Market.{Registered};

    ghost Value = { Registered };

    ghost use Rattle.mt_market.specs.Tables.{registered_of, AreTables};

    ghost view = { λ r. registered_of r.tables };

    ghost invariant = { λ r. AreTables r.tables };
}

impl Roster {
    /// The market that tables make.
    pub fn new(tables: Tables) -> Self
        requires { AreTables tables }
        ensures { result ≡ registered_of tables }
    {
        Roster { tables }
    }

    /// Does nothing. Its contract says that its market is one of a file.
    pub fn is_of_a_file(&self)
        ensures { IsRegistration self.now }
    {
        let _ = &self.tables.quotas;
    }

    /// How many applicants there are, members of couples included.
    pub fn applicants(&self) -> u32
        ensures count { result ≡ applicants self.now.market }
        ensures registration { IsRegistration self.now }
    {
        self.tables.agents.len() as u32
    }

    /// How many programs there are.
    pub fn programs(&self) -> u32
        ensures count { result ≡ length self.now.market.programs }
        ensures registration { IsRegistration self.now }
    {
        self.tables.quotas.len() as u32
    }

    /// How many couples there are.
    pub fn couples(&self) -> u32
        ensures count { result ≡ length self.now.market.couples }
        ensures registration { IsRegistration self.now }
    {
        self.tables.by_applicants.members.len() as u32
    }

    /// The program's id.
    pub fn program_id(&self, program: ProgNo) -> &[u8]
        requires { program < length self.now.market.programs }
        ensures { result.now ≡ name_of self.now.names.programs program }
    {
        self.tables.program_ids.list(program.index())
    }

    /// The applicant's id.
    pub fn applicant_id(&self, applicant: AppNo) -> &[u8]
        requires { applicant < applicants self.now.market }
        ensures { result.now ≡ name_of self.now.names.applicants applicant }
    {
        self.tables.applicant_ids.list(applicant.index())
    }

    /// The couple's id.
    pub fn couple_id(&self, couple: CoupleNo) -> &[u8]
        requires { couple < length self.now.market.couples }
        ensures { result.now ≡ name_of self.now.names.couples couple }
    {
        self.tables.couple_ids.list(couple.index())
    }

    /// How many posts the program has.
    pub fn quota(&self, program: ProgNo) -> u32
        requires { program < length self.now.market.programs }
        ensures { result ≡ (program_of self.now.market program).quota }
    {
        self.tables.quotas[program.index()]
    }

    /// The applicants that the program lists, the most wanted first.
    pub fn program_list(&self, program: ProgNo) -> &[AppNo]
        requires { program < length self.now.market.programs }
        ensures { result.now ≡ (program_of self.now.market program).ranking }
    {
        self.tables.by_applicants.rankings.list(program.index())
    }

    /// The agent that the applicant belongs to: its couple, or itself.
    pub fn agent_of(&self, applicant: AppNo) -> Agent
        requires { applicant < applicants self.now.market }
        ensures { result ≡ agent_of self.now.market applicant }
    {
        self.tables.agents[applicant.index()]
    }

    /// The programs that a single lists, the most wanted first. It is empty for a couple's member.
    pub fn single_list(&self, applicant: AppNo) -> &[ProgNo]
        requires { applicant < applicants self.now.market }
        ensures { result.now ≡ list_of self.now.market applicant }
    {
        self.tables.by_programs.lists.list(applicant.index())
    }

    /// The couple's two members, in the order of its pairs.
    pub fn members(&self, couple: CoupleNo) -> (AppNo, AppNo)
        requires { couple < length self.now.market.couples }
        ensures first { result.0 ≡ (couple_of self.now.market couple).first }
        ensures second { result.1 ≡ (couple_of self.now.market couple).second }
    {
        self.tables.by_applicants.members[couple.index()]
    }

    /// The pairs that the couple lists, the most wanted first: a place for each member, with none for a member that
    /// stays unplaced.
    pub fn couple_list(&self, couple: CoupleNo) -> &[(Option<ProgNo>, Option<ProgNo>)]
        requires { couple < length self.now.market.couples }
        ensures { result.now ≡ (couple_of self.now.market couple).pairs }
    {
        self.tables.by_programs.pairs.list(couple.index())
    }
}
