ghost use Rattle.std.specs.Prelude.{map, IfOk, string_bytes};
ghost use Rattle.mt_explained.specs.Found.{AreAsked};

use mt_judged::all_agents;
use mt_market::Roster;
use mt_match_file::{NamedAgents, named_agents};
use std::alloc::{AllocError, Global};

/// The agents that are asked for by some words, or all of them if there is no word. Else it is the first word that
/// names none. The error is want of memory.
pub(crate) fn agents_asked<'a>(
    alloc: Global,
    roster: &Roster,
    words: &'a [String],
) -> Result<NamedAgents<'a>, AllocError>
    ensures { IfOk result (AreAsked roster.now (map string_bytes words.entry.now)) }
{
    if words.is_empty() {
        return Ok(NamedAgents::Agents(all_agents(alloc, roster)?));
    }
    named_agents(alloc, roster, words)
}
