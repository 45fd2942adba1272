ghost use Rattle.std.specs.Prelude.{◌≡◌, ◌<◌, length};
ghost use Rattle.std.specs.List.{list_all};
ghost use Rattle.mt_terms.specs.Matching.{better};
ghost use Rattle.mt_terms.specs.Market.{IsAgentOf};
ghost use Rattle.mt_explain.specs.Lines.{is_open, line_if, says_open};
ghost use Rattle.mt_findings.specs.Findings.{is_taken};

use mt_explain::{Line, Why, option_lines};
use mt_terms::Agent;
use mt_verify::MatchTables;

/// Whether this is why a post is open.
fn says_open(why: Why) -> bool
    ensures { result ≡ says_open why }
{
    match why {
        Why::Unlisted => false,
        Why::Full => false,
        Why::Open => true,
    }
}

/// Whether a line, if there is one, says that a post is open.
#[tactic(auto, using(crate::proofs::OpenFacts::and_true))]
fn is_open_if(line: &Option<Line>) -> bool
    ensures { result ≡ list_all is_open (line_if line.now) }
{
    match line {
        None => true,
        Some(line) => says_open(line.why()),
    }
}

/// Whether the agent's better option with a number would be taken.
pub(crate) fn is_taken(tables: &MatchTables<'_>, agent: &Agent, option: u32) -> bool
    requires agent { IsAgentOf tables.now.registered.market agent.now }
    requires option { option < length (better tables.now.registered.market tables.now.places agent.now) }
    ensures { result ≡ is_taken tables.now.registered.market tables.now.places agent.now option }
{
    tables.roster().is_of_a_file();
    let _ = tables.matched();
    let lines = option_lines(tables, *agent, option);
    is_open_if(&lines.0) && is_open_if(&lines.1)
}
