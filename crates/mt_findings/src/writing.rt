ghost use Rattle.std.specs.Prelude.{◌≡◌, ◌+◌, ◌<◌, ◌^◌, [], All, if◌then◌else◌, IsTrue, OnErr, OnOk, is_ok, length};
ghost use Rattle.std.specs.List.{flat_map};
ghost use Rattle.mt_terms.specs.Market.{agents, IsAgentOf};
ghost use Rattle.mt_report.specs.Drains.{contents_of, failures_of, is_flushed};
ghost use Rattle.mt_first_finding.specs.View.{market_of, places_of};
ghost use Rattle.mt_files.specs.Answer.{IsGiven};
ghost use Rattle.mt_findings.specs.Answer.{found_answer, number_code};
ghost use Rattle.mt_findings.specs.Findings.{blocking_by, differing_of, findings, over, unlisted};
ghost use Rattle.mt_findings.specs.Writing.{Failed, Wrote};

use crate::allowed::{differs, is_over, is_unlisted};
use crate::lines::{FindingLines, finish, write_if};
use crate::taken::is_taken;
use mt_first_finding::{Finding, Tally};
use mt_market::Roster;
use mt_match_file::{Counted, SubmittedMatch};
use mt_pages::Unwritten;
use mt_report::Drain;
use mt_terms::{Agent, AppNo, Blocker, ProgNo, Verdict};
use mt_verify::MatchTables;
use std::io::Write;

/// Writes the applicants whose places aren't allowed, by number.
fn write_unlisted<W: Write>(
    drain: &mut Drain<W>,
    lines: &mut FindingLines,
    tables: &MatchTables<'_>,
) -> Result<(), Unwritten>
    requires count { let t = tables.now in
        lines.old.count + length (unlisted t.registered.market t.places) < 2 ^ 64 }
    requires failures { failures_of drain.old + 1 < 2 ^ 64 }
    ensures wrote { let t = tables.now in OnOk result (Wrote W.contents t.registered
        drain.old drain.new lines.old lines.new (unlisted t.registered.market t.places)) }
    ensures failed { let t = tables.now in OnErr result (Failed W.contents t.registered
        drain.old drain.new lines.old lines.new (unlisted t.registered.market t.places)) }
{
    let roster = tables.roster();
    for number in 0..roster.applicants() {
        let applicant = AppNo(number);
        let is_so = is_unlisted(tables, applicant);
        let finding = Finding::Of(Verdict::Unlisted(applicant));
        write_if(drain, lines, roster, is_so, &finding)?;
    }
    Ok(())
}

/// Writes the programs over their quotas, by number.
fn write_over<W: Write>(
    drain: &mut Drain<W>,
    lines: &mut FindingLines,
    roster: &Roster,
    tally: &Tally<'_>,
) -> Result<(), Unwritten>
    requires market { roster.now.market ≡ market_of tally.now }
    requires count { lines.old.count
        + length (over (market_of tally.now) (places_of tally.now)) < 2 ^ 64 }
    requires failures { failures_of drain.old + 1 < 2 ^ 64 }
    ensures wrote { OnOk result (Wrote W.contents roster.now
        drain.old drain.new lines.old lines.new (over (market_of tally.now) (places_of tally.now))) }
    ensures failed { OnErr result (Failed W.contents roster.now
        drain.old drain.new lines.old lines.new (over (market_of tally.now) (places_of tally.now))) }
{
    for number in 0..roster.programs() {
        let program = ProgNo(number);
        let is_so = is_over(roster, tally, program);
        let finding = Finding::Of(Verdict::Over(program));
        write_if(drain, lines, roster, is_so, &finding)?;
    }
    Ok(())
}

/// Writes the agent with each option by which it blocks.
fn write_blocking_by<W: Write>(
    drain: &mut Drain<W>,
    lines: &mut FindingLines,
    tables: &MatchTables<'_>,
    agent: &Agent,
) -> Result<(), Unwritten>
    requires agent { IsAgentOf tables.now.registered.market agent.now }
    requires count { let t = tables.now in
        lines.old.count + length (blocking_by t.registered.market t.places agent.now) < 2 ^ 64 }
    requires failures { failures_of drain.old + 1 < 2 ^ 64 }
    ensures wrote { let t = tables.now in OnOk result (Wrote W.contents t.registered
        drain.old drain.new lines.old lines.new (blocking_by t.registered.market t.places agent.now)) }
    ensures failed { let t = tables.now in OnErr result (Failed W.contents t.registered
        drain.old drain.new lines.old lines.new (blocking_by t.registered.market t.places agent.now)) }
{
    let roster = tables.roster();
    for option in 0..tables.better_options(*agent) {
        let is_so = is_taken(tables, agent, option);
        let blocker = Blocker {
            agent: *agent,
            option,
        };
        let finding = Finding::Of(Verdict::Blocks(blocker));
        write_if(drain, lines, roster, is_so, &finding)?;
    }
    Ok(())
}

/// Writes these agents, each with every option by which it blocks.
fn write_blocking<W: Write>(
    drain: &mut Drain<W>,
    lines: &mut FindingLines,
    tables: &MatchTables<'_>,
    agents: &[Agent],
) -> Result<(), Unwritten>
    requires agents { All (IsAgentOf tables.now.registered.market) agents.now }
    requires count { let t = tables.now in lines.old.count
        + length (flat_map (blocking_by t.registered.market t.places) agents.now) < 2 ^ 64 }
    requires failures { failures_of drain.old + 1 < 2 ^ 64 }
    ensures wrote { let t = tables.now in OnOk result (Wrote W.contents t.registered
        drain.old drain.new lines.old lines.new
        (flat_map (blocking_by t.registered.market t.places) agents.now)) }
    ensures failed { let t = tables.now in OnErr result (Failed W.contents t.registered
        drain.old drain.new lines.old lines.new
        (flat_map (blocking_by t.registered.market t.places) agents.now)) }
{
    for agent in agents {
        write_blocking_by(drain, lines, tables, agent)?;
    }
    Ok(())
}

/// Writes the records that say other counts.
fn write_differing<W: Write>(
    drain: &mut Drain<W>,
    lines: &mut FindingLines,
    roster: &Roster,
    tally: &Tally<'_>,
    counts: &[Counted],
) -> Result<(), Unwritten>
    requires count { lines.old.count
        + length (differing_of (market_of tally.now) (places_of tally.now) counts.now) < 2 ^ 64 }
    requires failures { failures_of drain.old + 1 < 2 ^ 64 }
    ensures wrote { OnOk result (Wrote W.contents roster.now drain.old drain.new
        lines.old lines.new (differing_of (market_of tally.now) (places_of tally.now) counts.now)) }
    ensures failed { OnErr result (Failed W.contents roster.now drain.old drain.new
        lines.old lines.new (differing_of (market_of tally.now) (places_of tally.now) counts.now)) }
{
    for counted in counts {
        let is_so = differs(tally, counted);
        let finding = Finding::Differs(counted.row);
        write_if(drain, lines, roster, is_so, &finding)?;
    }
    Ok(())
}

/// Writes every finding, and the last line. The findings are applicants whose places aren't allowed, programs over
/// their quotas, agents with each option by which they block, and records of other counts.
pub(crate) fn write_all<W: Write>(
    drain: &mut Drain<W>,
    lines: &mut FindingLines,
    tables: &MatchTables<'_>,
    all_agents: &[Agent],
    tally: &Tally<'_>,
    submitted: &SubmittedMatch,
) -> Result<(), Unwritten>
    requires agents { all_agents.now ≡ agents tables.now.registered.market }
    requires market { market_of tally.now ≡ tables.now.registered.market }
    requires tally { places_of tally.now ≡ tables.now.places }
    requires places { submitted.now.places ≡ tables.now.places }
    requires few { length (findings tables.now.registered.market submitted.now) < 2 ^ 64 }
    requires page { lines.old.page ≡ [] }
    requires count { lines.old.count ≡ 0 }
    requires failures { failures_of drain.old + 1 < 2 ^ 64 }
    ensures given { let r = tables.now.registered in
        IsGiven (found_answer r (length submitted.now.aside) (findings r.market submitted.now))
        (contents_of W.contents drain.old) (contents_of W.contents drain.new)
        (number_code lines.new.count) (is_ok result) }
    ensures writer { failures_of drain.new
        ≡ failures_of drain.old + (if is_ok result then 0 else 1) }
    ensures flushed { IsTrue (is_ok result) → IsTrue (is_flushed drain.new) }
{
    let roster = tables.roster();
    roster.is_of_a_file();
    write_unlisted(drain, lines, tables)?;
    write_over(drain, lines, roster, tally)?;
    write_blocking(drain, lines, tables, all_agents)?;
    write_differing(drain, lines, roster, tally, submitted.counts())?;
    finish(drain, lines, submitted.aside().len())
}
