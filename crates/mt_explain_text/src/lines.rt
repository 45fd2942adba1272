ghost use Rattle.std.specs.Prelude.{◌≡◌, ◌<◌, ◌≤◌, ◌+◌, ◌*◌, ◌++◌, [], length, IfSome, slice_index_or};
ghost use Rattle.mt_terms.specs.Market.{applicants, IsAgentOf};
ghost use Rattle.mt_terms.specs.Matching.{better, options, place_of};
ghost use Rattle.mt_terms.specs.Text.{name_of, place_text};
ghost use Rattle.mt_terms.specs.declared.numbers.Agent.TheVariants.{Couple, Single};
ghost use Rattle.mt_explain.specs.Lines.{both_lines, line_if, option_lines};
ghost use Rattle.mt_explain_text.specs.Text.{above_line, above_lines, agent_id, own_line};
ghost use Rattle.mt_explain_text.specs.Here.{IsHere};
ghost use Rattle.mt_pages.specs.declared.page.TheConstants.{LINE_LEN, PAGE_LEN};

use crate::fields::{ahead_of, number_of, push_number, push_told, rank_of, why_field};
use mt_explain::{Line, OptionLines, option_lines};
use mt_market::Roster;
use mt_pages::Page;
use mt_terms::{Agent, AppNo, CoupleNo, ProgNo};
use mt_verify::MatchTables;

/// The lines that explain a match. Public ones have no rank, no quota and no number of applicants.
#[derive(Drop)]
pub struct AgentLines<'a> {
    tables: MatchTables<'a>,
    is_public: bool,
}

impl<'a> AgentLines<'a> {
    ghost use Rattle.mt_explain_text.specs.View.{is_public_of, places_of, registered_of};

    /// The lines of a match, public or not.
    pub fn of(tables: MatchTables<'a>, is_public: bool) -> Self
        ensures registered { registered_of result ≡ tables.entry.registered }
        ensures places { places_of result ≡ tables.entry.places }
        ensures kind { is_public_of result ≡ is_public }
    {
        AgentLines { tables, is_public }
    }

    /// The market of the match.
    pub fn roster(&self) -> &'a Roster
        ensures { result.now ≡ registered_of self.now }
    {
        self.tables.roster()
    }

    /// How many options the agent wants more than what it has. They are the first ones of its list.
    pub fn better_options(&self, agent: &Agent) -> u32
        requires { IsAgentOf (registered_of self.now).market agent.now }
        ensures { result ≡ length (better (registered_of self.now).market (places_of self.now) agent.now) }
    {
        self.tables.better_options(*agent)
    }

    /// Adds the line of what an agent has.
    pub fn push_own(&self, page: &mut Page, agent: &Agent)
        requires agent { IsAgentOf (registered_of self.now).market agent.now }
        requires room { length page.old + LINE_LEN ≤ PAGE_LEN }
        ensures { page.new ≡ page.old
            ++ own_line (registered_of self.now) (places_of self.now) (is_public_of self.now) agent.now }
    {
        match *agent {
            Agent::Single(applicant) => self.push_single(page, applicant),
            Agent::Couple(couple) => self.push_couple(page, couple),
        }
    }

    /// Adds the lines of an option of an agent, which has a number on its list.
    pub fn push_option(&self, page: &mut Page, agent: &Agent, option: u32)
        requires agent { IsAgentOf (registered_of self.now).market agent.now }
        requires option { option < length (options (registered_of self.now).market agent.now) }
        requires room { length page.old + 2 * LINE_LEN ≤ PAGE_LEN }
        ensures { let m = (registered_of self.now).market in page.new ≡ page.old
            ++ above_lines (registered_of self.now) (is_public_of self.now) agent.now
            (option_lines m (places_of self.now) option (slice_index_or (options m agent.now) option [])) }
    {
        self.roster().is_of_a_file();
        let lines = option_lines(&self.tables, *agent, option);
        self.push_lines(page, agent, &lines);
    }

    /// Adds the lines of an option of an agent.
    fn push_lines(&self, page: &mut Page, agent: &Agent, lines: &OptionLines)
        requires agent { IsAgentOf (registered_of self.now).market agent.now }
        requires first { IfSome lines.now.0 (IsHere (registered_of self.now).market) }
        requires second { IfSome lines.now.1 (IsHere (registered_of self.now).market) }
        requires room { length page.old + 2 * LINE_LEN ≤ PAGE_LEN }
        ensures { page.new ≡ page.old
            ++ above_lines (registered_of self.now) (is_public_of self.now) agent.now (both_lines lines.now) }
    {
        self.push_if(page, agent, &lines.0);
        self.push_if(page, agent, &lines.1);
    }

    /// Adds the line of what a single has.
    fn push_single(&self, page: &mut Page, applicant: AppNo)
        requires applicant { applicant < applicants (registered_of self.now).market }
        requires room { length page.old + LINE_LEN ≤ PAGE_LEN }
        ensures { page.new ≡ page.old ++ own_line (registered_of self.now) (places_of self.now)
            (is_public_of self.now) (Single applicant) }
    {
        let agent = Agent::Single(applicant);
        let choice = number_of(self.tables.held_option(agent));
        let rank = number_of(self.tables.rank_at_place(applicant));
        page.push(b"applicant");
        page.push_field(self.applicant_id(applicant));
        page.push_field(self.place_id(applicant));
        push_number(page, choice);
        push_told(page, self.is_public, rank);
        page.push(b",,,,\n");
    }

    /// Adds the line of what a couple has.
    fn push_couple(&self, page: &mut Page, couple: CoupleNo)
        requires couple { couple < length (registered_of self.now).market.couples }
        requires room { length page.old + LINE_LEN ≤ PAGE_LEN }
        ensures { page.new ≡ page.old ++ own_line (registered_of self.now) (places_of self.now)
            (is_public_of self.now) (Couple couple) }
    {
        let agent = Agent::Couple(couple);
        let (first, second) = self.roster().members(couple);
        let choice = number_of(self.tables.held_option(agent));
        page.push(b"couple");
        page.push_field(self.couple_id(couple));
        page.push_field(self.place_id(first));
        page.push_field(self.place_id(second));
        push_number(page, choice);
        page.push(b",,,,\n");
    }

    /// Adds the line of a place that an option of an agent names, if there is one.
    fn push_if(&self, page: &mut Page, agent: &Agent, line: &Option<Line>)
        requires agent { IsAgentOf (registered_of self.now).market agent.now }
        requires line { IfSome line.now (IsHere (registered_of self.now).market) }
        requires room { length page.old + LINE_LEN ≤ PAGE_LEN }
        ensures lines { page.new ≡ page.old
            ++ above_lines (registered_of self.now) (is_public_of self.now) agent.now (line_if line.now) }
        ensures length { length page.new ≤ length page.old + LINE_LEN }
    {
        if let Some(line) = line {
            self.push_above(page, agent, line);
        }
    }

    /// Adds the line of a place that an option of an agent names.
    fn push_above(&self, page: &mut Page, agent: &Agent, line: &Line)
        requires agent { IsAgentOf (registered_of self.now).market agent.now }
        requires line { IsHere (registered_of self.now).market line.now }
        requires room { length page.old + LINE_LEN ≤ PAGE_LEN }
        ensures line { page.new ≡ page.old
            ++ above_line (registered_of self.now) (is_public_of self.now) agent.now line.now }
        ensures length { length page.new ≤ length page.old + LINE_LEN }
    {
        page.push(b"above");
        page.push_field(self.agent_id(agent));
        push_number(page, Some(u64::from(line.option) + 1));
        page.push_field(self.program_id(line.program));
        page.push_field(self.applicant_id(line.member));
        push_told(page, self.is_public, rank_of(line));
        push_told(page, self.is_public, Some(u64::from(line.quota)));
        push_told(page, self.is_public, ahead_of(line));
        page.push_field(why_field(line));
        page.push(b"\n");
    }

    /// The id of a program of the market.
    fn program_id(&self, program: ProgNo) -> &[u8]
        requires { program < length (registered_of self.now).market.programs }
        ensures value { result.now ≡ name_of (registered_of self.now).names.programs program }
        ensures short { length result.now ≤ 64 }
    {
        let roster = self.roster();
        roster.is_of_a_file();
        roster.program_id(program)
    }

    /// The id of an applicant of the market.
    fn applicant_id(&self, applicant: AppNo) -> &[u8]
        requires { applicant < applicants (registered_of self.now).market }
        ensures value { result.now ≡ name_of (registered_of self.now).names.applicants applicant }
        ensures short { length result.now ≤ 64 }
    {
        let roster = self.roster();
        roster.is_of_a_file();
        roster.applicant_id(applicant)
    }

    /// The id of an agent.
    fn agent_id(&self, agent: &Agent) -> &[u8]
        requires { IsAgentOf (registered_of self.now).market agent.now }
        ensures value { result.now ≡ agent_id (registered_of self.now).names agent.now }
        ensures short { length result.now ≤ 64 }
    {
        match *agent {
            Agent::Single(applicant) => self.applicant_id(applicant),
            Agent::Couple(couple) => self.couple_id(couple),
        }
    }

    /// The id of a couple of the market.
    fn couple_id(&self, couple: CoupleNo) -> &[u8]
        requires { couple < length (registered_of self.now).market.couples }
        ensures value { result.now ≡ name_of (registered_of self.now).names.couples couple }
        ensures short { length result.now ≤ 64 }
    {
        let roster = self.roster();
        roster.is_of_a_file();
        roster.couple_id(couple)
    }

    /// The id of an applicant's place, or `-`.
    fn place_id(&self, applicant: AppNo) -> &[u8]
        ensures value { result.now ≡ place_text (registered_of self.now).names
            (place_of (places_of self.now) applicant) }
        ensures short { length result.now ≤ 64 }
    {
        match self.tables.matched().place(applicant) {
            Some(program) => self.program_id(program),
            None => b"-",
        }
    }
}
