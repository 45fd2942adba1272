ghost use Rattle.std.specs.Prelude.{◌≡◌, ◌<◌, map, length, IfOk, IfSome};
ghost use Rattle.mt_terms.specs.Matching.{options};
ghost use Rattle.mt_terms.specs.Text.{place_text};
ghost use Rattle.mt_terms.specs.declared.verdict.Verdict.TheVariants.{Blocks};
ghost use Rattle.mt_first_finding.specs.Findings.{IsThere};
ghost use Rattle.mt_first_finding.specs.Text.{check_line, finding_line, stable_line_with};
ghost use Rattle.mt_first_finding.specs.declared.finding.Finding.TheVariants.{Of};

use itoa::Buffer;
use mt_first_finding::Finding;
use mt_market::Roster;
use mt_terms::{Agent, Blocker, ProgNo, Verdict};
use std::alloc::{AllocError, Global};

/// A line of a check with these fields after its first two.
fn check_line(alloc: Global, fields: &[&[u8]]) -> Result<Vec<u8>, AllocError>
    ensures { IfOk result (λ text. text.items ≡ check_line (map (λ field. field.now) fields.now)) }
{
    let mut text = Vec::from_slice(alloc, b"check,1")?;
    for field in fields {
        text.push(b',')?;
        text.extend_from_slice(field)?;
    }
    text.push(b'\n')?;
    Ok(text)
}

/// The id of a place, or `-`.
fn place_id(roster: &Roster, place: Option<ProgNo>) -> &[u8]
    requires { IfSome place (λ p. p < length roster.now.market.programs) }
    ensures { result.now ≡ place_text roster.entry.now.names place }
{
    match place {
        Some(program) => roster.program_id(program),
        None => b"-",
    }
}

/// The line of an agent that blocks, and where the option sends its members.
fn blocker_line(
    alloc: Global,
    roster: &Roster,
    agent: Agent,
    option: u32,
) -> Result<Vec<u8>, AllocError>
    requires { option < length (options roster.now.market agent) }
    ensures { IfOk result (λ text. text.items
        ≡ finding_line roster.now 0 (Of (Blocks (record { agent = agent; option = option })))) }
{
    let word = b"blocks".as_slice();
    let option = option as usize;
    roster.is_of_a_file();
    match agent {
        Agent::Single(applicant) => {
            let id = roster.applicant_id(applicant);
            let place = place_id(roster, Some(roster.single_list(applicant)[option]));
            check_line(alloc, &[word, b"applicant".as_slice(), id, place])
        }
        Agent::Couple(couple) => {
            let id = roster.couple_id(couple);
            let (first, second) = roster.couple_list(couple)[option];
            let first = place_id(roster, first);
            let second = place_id(roster, second);
            check_line(alloc, &[word, b"couple".as_slice(), id, first, second])
        }
    }
}

/// The line of a stable match, given the number of couples that it sets aside.
fn stable_line(alloc: Global, aside: usize) -> Result<Vec<u8>, AllocError>
    ensures { IfOk result (λ text. text.items ≡ stable_line_with aside) }
{
    if aside == 0 {
        return check_line(alloc, &[b"stable".as_slice()]);
    }
    let mut digits = Buffer::new();
    let count = digits.format(aside as u64).as_bytes();
    check_line(alloc, &[b"stable".as_slice(), b"aside".as_slice(), count])
}

/// The line of a finding on a match, given the number of couples that it sets aside.
pub(crate) fn finding_line(
    alloc: Global,
    roster: &Roster,
    aside: usize,
    finding: &Finding,
) -> Result<Vec<u8>, AllocError>
    requires { IsThere roster.now.market finding.now }
    ensures { IfOk result (λ text. text.items ≡ finding_line roster.now aside finding.now) }
{
    match finding {
        Finding::Of(Verdict::Stable) => stable_line(alloc, aside),
        Finding::Of(Verdict::Unlisted(applicant)) => {
            let id = roster.applicant_id(*applicant);
            check_line(
                alloc,
                &[b"unlisted".as_slice(), b"applicant".as_slice(), id],
            )
        }
        Finding::Of(Verdict::Over(program)) => {
            let id = roster.program_id(*program);
            check_line(alloc, &[b"over".as_slice(), b"program".as_slice(), id])
        }
        Finding::Of(Verdict::Blocks(Blocker { agent, option })) => {
            blocker_line(alloc, roster, *agent, *option)
        }
        Finding::Differs(row) => {
            let mut digits = Buffer::new();
            let row = digits.format(*row).as_bytes();
            check_line(alloc, &[b"differs".as_slice(), row])
        }
    }
}
