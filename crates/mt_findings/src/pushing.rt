ghost use Rattle.std.specs.Prelude.{◌≡◌, ◌+◌, ◌<◌, ◌≤◌, ◌++◌, codes, decimal, length, IfSome};
ghost use Rattle.mt_terms.specs.Market.{applicants};
ghost use Rattle.mt_terms.specs.Matching.{options};
ghost use Rattle.mt_terms.specs.Text.{name_of, place_text};
ghost use Rattle.mt_terms.specs.declared.numbers.Agent.TheVariants.{Couple, Single};
ghost use Rattle.mt_terms.specs.declared.verdict.Verdict.TheVariants.{Blocks};
ghost use Rattle.mt_first_finding.specs.Findings.{IsThere};
ghost use Rattle.mt_first_finding.specs.Text.{finding_line, stable_line_with};
ghost use Rattle.mt_first_finding.specs.declared.finding.Finding.TheVariants.{Of};
ghost use Rattle.mt_pages.specs.declared.page.TheConstants.{LINE_LEN, PAGE_LEN};
ghost use Rattle.mt_findings.specs.Text.{last_line};

use itoa::Buffer;
use mt_first_finding::Finding;
use mt_market::Roster;
use mt_pages::{LINE_LEN, PAGE_LEN, Page};
use mt_terms::{Agent, AppNo, Blocker, CoupleNo, ProgNo, Verdict};

/// The id of an applicant of the market.
fn applicant_id(roster: &Roster, applicant: AppNo) -> &[u8]
    requires { applicant < applicants roster.now.market }
    ensures value { result.now ≡ name_of roster.now.names.applicants applicant }
    ensures short { length result.now ≤ 64 }
{
    roster.is_of_a_file();
    roster.applicant_id(applicant)
}

/// The id of a couple of the market.
fn couple_id(roster: &Roster, couple: CoupleNo) -> &[u8]
    requires { couple < length roster.now.market.couples }
    ensures value { result.now ≡ name_of roster.now.names.couples couple }
    ensures short { length result.now ≤ 64 }
{
    roster.is_of_a_file();
    roster.couple_id(couple)
}

/// The id of a program of the market.
fn program_id(roster: &Roster, program: ProgNo) -> &[u8]
    requires { program < length roster.now.market.programs }
    ensures value { result.now ≡ name_of roster.now.names.programs program }
    ensures short { length result.now ≤ 64 }
{
    roster.is_of_a_file();
    roster.program_id(program)
}

/// The id of a place, or `-`.
fn place_id(roster: &Roster, place: Option<ProgNo>) -> &[u8]
    requires { IfSome place (λ p. p < length roster.now.market.programs) }
    ensures value { result.now ≡ place_text roster.now.names place }
    ensures short { length result.now ≤ 64 }
{
    match place {
        Some(program) => program_id(roster, program),
        None => b"-",
    }
}

/// Adds a line of these bytes and one field.
fn push_one(page: &mut Page, front: &[u8], field: &[u8])
    requires front { length front.now ≤ 64 }
    requires field { length field.now ≤ 64 }
    requires room { length page.old + LINE_LEN ≤ PAGE_LEN }
    ensures { page.new ≡ page.old ++ (front.now ++ (codes "," ++ (field.now ++ codes "\n"))) }
{
    page.push(front);
    page.push_field(field);
    page.push(b"\n");
}

/// Adds a line of a number.
fn push_number(page: &mut Page, front: &[u8], number: u64)
    requires front { length front.now ≤ 64 }
    requires room { length page.old + LINE_LEN ≤ PAGE_LEN }
    ensures { page.new ≡ page.old ++ (front.now ++ (codes "," ++ (decimal number ++ codes "\n"))) }
{
    let mut digits = Buffer::new();
    push_one(page, front, digits.format(number).as_bytes());
}

/// Adds the line of a single that blocks, and the program where its option sends it.
fn push_single(page: &mut Page, roster: &Roster, applicant: AppNo, option: u32)
    requires option { option < length (options roster.now.market (Single applicant)) }
    requires room { length page.old + LINE_LEN ≤ PAGE_LEN }
    ensures { page.new ≡ page.old
        ++ finding_line roster.now 0 (Of (Blocks (record { agent = Single applicant; option = option }))) }
{
    roster.is_of_a_file();
    let program = roster.single_list(applicant)[option as usize];
    page.push(b"check,1,blocks,applicant");
    page.push_field(applicant_id(roster, applicant));
    page.push_field(program_id(roster, program));
    page.push(b"\n");
}

/// Adds the line of a couple that blocks, and where its option sends its members.
fn push_couple(page: &mut Page, roster: &Roster, couple: CoupleNo, option: u32)
    requires option { option < length (options roster.now.market (Couple couple)) }
    requires room { length page.old + LINE_LEN ≤ PAGE_LEN }
    ensures { page.new ≡ page.old
        ++ finding_line roster.now 0 (Of (Blocks (record { agent = Couple couple; option = option }))) }
{
    roster.is_of_a_file();
    let (first, second) = roster.couple_list(couple)[option as usize];
    page.push(b"check,1,blocks,couple");
    page.push_field(couple_id(roster, couple));
    page.push_field(place_id(roster, first));
    page.push_field(place_id(roster, second));
    page.push(b"\n");
}

/// Adds the line of a match without a finding, given the number of couples that it sets aside.
fn push_stable(page: &mut Page, aside: usize)
    requires { length page.old + LINE_LEN ≤ PAGE_LEN }
    ensures { page.new ≡ page.old ++ stable_line_with aside }
{
    if aside == 0 {
        page.push(b"check,1,stable\n");
    } else {
        push_number(page, b"check,1,stable,aside", aside as u64);
    }
}

/// Adds the line of a finding.
pub(crate) fn push_finding(page: &mut Page, roster: &Roster, finding: &Finding)
    requires there { IsThere roster.now.market finding.now }
    requires room { length page.old + LINE_LEN ≤ PAGE_LEN }
    ensures { page.new ≡ page.old ++ finding_line roster.now 0 finding.now }
{
    match *finding {
        Finding::Of(Verdict::Stable) => push_stable(page, 0),
        Finding::Of(Verdict::Unlisted(applicant)) => {
            push_one(
                page,
                b"check,1,unlisted,applicant",
                applicant_id(roster, applicant),
            );
        }
        Finding::Of(Verdict::Over(program)) => {
            push_one(page, b"check,1,over,program", program_id(roster, program));
        }
        Finding::Of(Verdict::Blocks(Blocker { agent, option })) => match agent {
            Agent::Single(applicant) => push_single(page, roster, applicant, option),
            Agent::Couple(couple) => push_couple(page, roster, couple, option),
        },
        Finding::Differs(row) => push_number(page, b"check,1,differs", row),
    }
}

/// Adds the last line, given the number of findings.
pub(crate) fn push_last(page: &mut Page, aside: usize, findings: u64)
    requires { length page.old + LINE_LEN ≤ PAGE_LEN }
    ensures { page.new ≡ page.old ++ last_line aside findings }
{
    if findings == 0 {
        push_stable(page, aside);
    } else {
        push_number(page, b"check,1,findings", findings);
    }
}
