ghost use Rattle.std.specs.Prelude.{map, IfOk, string_bytes};
ghost use Rattle.mt_match_file.specs.Agents.{AreNamed};
ghost use Rattle.mt_match_file.specs.View.{market_of};

use crate::ids::Ids;
use mt_market::Roster;
use mt_terms::Agent;
use std::alloc::{AllocError, Global};

/// The agents that some words name, or the word that names none.
#[derive(Drop)]
pub enum NamedAgents<'a> {
    /// The agents, in the order of the words.
    Agents(Vec<Agent>),
    /// The first word that names no agent.
    Unknown(&'a str),
}

/// The agents that some words name, among those of a market with its ids.
fn agents_among<'a>(
    alloc: Global,
    ids: &Ids<'_>,
    words: &'a [String],
) -> Result<NamedAgents<'a>, AllocError>
    ensures { IfOk result (AreNamed (market_of ids.now) (map string_bytes words.entry.now)) }
{
    let mut agents = Vec::new(alloc);
    for word in words {
        match ids.agent(word.as_bytes()) {
            Some(agent) => agents.push(agent)?,
            None => return Ok(NamedAgents::Unknown(word.as_str())),
        }
    }
    Ok(NamedAgents::Agents(agents))
}

/// The agents of a market that some words name by an applicant's or a couple's id, or the first word that names none. A
/// member's id names its couple. The error is want of memory.
pub fn named_agents<'a>(
    alloc: Global,
    roster: &Roster,
    words: &'a [String],
) -> Result<NamedAgents<'a>, AllocError>
    ensures { IfOk result (AreNamed roster.now (map string_bytes words.entry.now)) }
{
    let ids = Ids::of(alloc, roster)?;
    agents_among(alloc, &ids, words)
}
