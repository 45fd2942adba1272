ghost use Rattle.std.specs.Prelude.{◌≡◌, ◌<◌, length, not};
ghost use Rattle.mt_terms.specs.Market.{applicants, members, IsAgentOf};
ghost use Rattle.mt_terms.specs.Matching.{none_placed, place_of};
ghost use Rattle.mt_terms.specs.Stability.{has_own_option, is_listed};
ghost use Rattle.mt_terms.specs.Verdict.{is_over, is_unlisted, lowest_number};
ghost use Rattle.mt_first_finding.specs.Findings.{fits_count};
ghost use Rattle.mt_first_finding.specs.View.{market_of, places_of};

use mt_first_finding::Tally;
use mt_market::Roster;
use mt_match_file::Counted;
use mt_terms::{Agent, AppNo, ProgNo};
use mt_verify::MatchTables;

/// Whether none of the agent's members is placed.
#[tactic(auto, using(crate::proofs::OpenFacts::and_true))]
fn none_placed(tables: &MatchTables<'_>, agent: &Agent) -> bool
    requires { IsAgentOf tables.now.registered.market agent.now }
    ensures { result ≡ none_placed tables.now.places (members tables.now.registered.market agent.now) }
{
    let matched = tables.matched();
    match *agent {
        Agent::Single(applicant) => matched.place(applicant).is_none(),
        Agent::Couple(couple) => {
            let (first, second) = tables.roster().members(couple);
            matched.place(first).is_none() && matched.place(second).is_none()
        }
    }
}

/// Whether the agent has an option of its list, or none of its members is placed.
#[tactic(auto, using(mt_verify::proofs::FindFacts::any_has_position))]
fn has_own_option(tables: &MatchTables<'_>, agent: &Agent) -> bool
    requires { IsAgentOf tables.now.registered.market agent.now }
    ensures { result ≡ has_own_option tables.now.registered.market tables.now.places agent.now }
{
    tables.held_option(*agent).is_some() || none_placed(tables, agent)
}

/// Whether the applicant is unplaced, or its program lists it.
fn is_listed(tables: &MatchTables<'_>, applicant: AppNo) -> bool
    requires { applicant < applicants tables.now.registered.market }
    ensures { result ≡ is_listed tables.now.registered.market applicant
        (place_of tables.now.places applicant) }
{
    match tables.matched().place(applicant) {
        None => true,
        Some(_) => tables.rank_at_place(applicant).is_some(),
    }
}

/// The number at which a finding on an agent is reported: a single's own, and the lower one of a couple's.
fn lowest_number(tables: &MatchTables<'_>, agent: &Agent) -> u32
    requires { IsAgentOf tables.now.registered.market agent.now }
    ensures { result ≡ lowest_number tables.now.registered.market agent.now }
{
    match *agent {
        Agent::Single(applicant) => applicant.0,
        Agent::Couple(couple) => {
            let (first, second) = tables.roster().members(couple);
            first.0.min(second.0)
        }
    }
}

/// Whether the applicant's place isn't allowed, by its agent's list, which is reported at the agent's lowest number, or
/// by its program's list.
pub(crate) fn is_unlisted(tables: &MatchTables<'_>, applicant: AppNo) -> bool
    requires { applicant < applicants tables.now.registered.market }
    ensures { result ≡ is_unlisted tables.now.registered.market tables.now.places applicant }
{
    let agent = tables.roster().agent_of(applicant);
    let is_lowest = lowest_number(tables, &agent) == applicant.0;
    (is_lowest && !has_own_option(tables, &agent)) || !is_listed(tables, applicant)
}

/// Whether the program has more applicants than its quota.
#[tactic(auto, using(crate::proofs::OpenFacts::over_test))]
pub(crate) fn is_over(roster: &Roster, tally: &Tally<'_>, program: ProgNo) -> bool
    requires market { roster.now.market ≡ market_of tally.now }
    requires program { program < length (market_of tally.now).programs }
    ensures { result ≡ is_over (market_of tally.now) (places_of tally.now) program }
{
    tally.filled(program) > roster.quota(program)
}

/// Whether a record says other counts than the match has.
pub(crate) fn differs(tally: &Tally<'_>, counted: &Counted) -> bool
    ensures { result ≡ not (fits_count (market_of tally.now) (places_of tally.now) counted.now.count) }
{
    !tally.fits(&counted.count)
}
