ghost use Rattle.std.specs.Prelude.{◌≡◌, ◌≢◌, ◌<◌, [], length, IfSome, Some, slice_index, slice_index_or};
ghost use Rattle.mt_terms.specs.Market.{applicants, couple_of, list_of, IsAgentOf};
ghost use Rattle.mt_terms.specs.Matching.{couple_placement, options, send, single_placement};
ghost use Rattle.mt_terms.specs.declared.numbers.Agent.TheVariants.{Couple};
ghost use Rattle.mt_explain.specs.Lines.{both_lines, line_if, lines_at, option_lines};

use crate::line::Line;
use mt_terms::{Agent, AppNo, CoupleNo, ProgNo};
use mt_verify::MatchTables;

/// The lines of an option: one for each of its places, the first member's first.
pub type OptionLines = (Option<Line>, Option<Line>);

/// A member, and where an option sends it.
type Sent = (AppNo, Option<ProgNo>);

/// The lines of the agent's option with a number, in a match with its tables.
pub fn option_lines(tables: &MatchTables<'_>, agent: Agent, option: u32) -> OptionLines
    requires agent { IsAgentOf tables.now.registered.market agent }
    requires option { option < length (options tables.now.registered.market agent) }
    ensures { let m = tables.now.registered.market in
        both_lines result ≡ option_lines m tables.now.places option (slice_index_or (options m agent) option []) }
{
    match agent {
        Agent::Single(applicant) => (Some(single_line(tables, applicant, option)), None),
        Agent::Couple(couple) => pair_lines(tables, couple, option),
    }
}

/// The line of a program on a single's list.
fn single_line(tables: &MatchTables<'_>, applicant: AppNo, option: u32) -> Line
    requires applicant { applicant < applicants tables.now.registered.market }
    requires option { option < length (list_of tables.now.registered.market applicant) }
    ensures { let m = tables.now.registered.market in let p = slice_index (list_of m applicant) option in
        line_if (Some result) ≡ lines_at m (send (single_placement applicant p) tables.now.places) option applicant (Some p) }
{
    let roster = tables.roster();
    roster.is_of_a_file();
    let program = roster.single_list(applicant)[option as usize];
    Line {
        option,
        program,
        member: applicant,
        quota: roster.quota(program),
        prospect: tables.single_prospect(applicant, program),
    }
}

/// The lines of a pair on a couple's list.
fn pair_lines(tables: &MatchTables<'_>, couple: CoupleNo, option: u32) -> OptionLines
    requires couple { couple < length tables.now.registered.market.couples }
    requires option { option < length (couple_of tables.now.registered.market couple).pairs }
    ensures { let m = tables.now.registered.market in
        both_lines result ≡ option_lines m tables.now.places option (slice_index_or (options m (Couple couple)) option []) }
{
    let roster = tables.roster();
    roster.is_of_a_file();
    let (first, second) = roster.members(couple);
    let pair = roster.couple_list(couple)[option as usize];
    let one = member_line(tables, option, (first, pair.0), (second, pair.1));
    let other = member_line(tables, option, (second, pair.1), (first, pair.0));
    (one, other)
}

/// The line of a couple's member that a pair sends to a program, its partner sent to its own place at once. None
/// if the pair sends the member nowhere.
fn member_line(tables: &MatchTables<'_>, option: u32, member: Sent, partner: Sent) -> Option<Line>
    requires member { member.0 < applicants tables.now.registered.market }
    requires partner { partner.0 < applicants tables.now.registered.market }
    requires apart { member.0 ≢ partner.0 }
    requires place { IfSome member.1 (λ p. p < length tables.now.registered.market.programs) }
    ensures { let m = tables.now.registered.market in
        let sent = couple_placement member.0 partner.0 (member.1, partner.1) in
        line_if result ≡ lines_at m (send sent tables.now.places) option member.0 member.1 }
{
    let program = member.1?;
    Some(Line {
        option,
        program,
        member: member.0,
        quota: tables.roster().quota(program),
        prospect: tables.member_prospect(member.0, program, partner.0, partner.1),
    })
}
