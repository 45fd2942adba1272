ghost use Rattle.std.specs.Prelude.{◌+◌, ◌<◌, ◌^◌, All, OnErr, OnOk};
ghost use Rattle.mt_report.specs.Drains.{failures_of};
ghost use Rattle.mt_terms.specs.Market.{IsAgentOf};
ghost use Rattle.mt_explain_text.specs.Text.{agent_text, agents_text};
ghost use Rattle.mt_explain_text.specs.View.{is_public_of, places_of, registered_of};
ghost use Rattle.mt_pages.specs.Sending.{IsCut, IsSent};

use mt_explain_text::AgentLines;
use mt_pages::{Page, Unwritten, make_room};
use mt_report::Drain;
use mt_terms::Agent;
use std::io::Write;

/// Writes the lines of an agent. The last of them stay on the page.
fn write_agent<W: Write>(
    drain: &mut Drain<W>,
    page: &mut Page,
    lines: &AgentLines<'_>,
    agent: &Agent,
) -> Result<(), Unwritten>
    requires agent { IsAgentOf (registered_of lines.now).market agent.now }
    requires room { failures_of drain.old + 1 < 2 ^ 64 }
    ensures sent { OnOk result (IsSent W.contents drain.old drain.new page.old page.new
        (agent_text (registered_of lines.now) (places_of lines.now) (is_public_of lines.now) agent.now)) }
    ensures cut { OnErr result (IsCut W.contents drain.old drain.new page.old
        (agent_text (registered_of lines.now) (places_of lines.now) (is_public_of lines.now) agent.now)) }
{
    make_room(drain, page)?;
    lines.push_own(page, agent);
    for option in 0..lines.better_options(agent) {
        make_room(drain, page)?;
        lines.push_option(page, agent, option);
    }
    Ok(())
}

/// Writes the lines of several agents. The last of them stay on the page.
pub(crate) fn write_agents<W: Write>(
    drain: &mut Drain<W>,
    page: &mut Page,
    lines: &AgentLines<'_>,
    agents: &[Agent],
) -> Result<(), Unwritten>
    requires agents { All (IsAgentOf (registered_of lines.now).market) agents.now }
    requires room { failures_of drain.old + 1 < 2 ^ 64 }
    ensures sent { OnOk result (IsSent W.contents drain.old drain.new page.old page.new
        (agents_text (registered_of lines.now) (places_of lines.now) (is_public_of lines.now) agents.now)) }
    ensures cut { OnErr result (IsCut W.contents drain.old drain.new page.old
        (agents_text (registered_of lines.now) (places_of lines.now) (is_public_of lines.now) agents.now)) }
{
    for agent in agents {
        write_agent(drain, page, lines, agent)?;
    }
    Ok(())
}
