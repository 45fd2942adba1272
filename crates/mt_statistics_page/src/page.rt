ghost use Rattle.std.specs.Prelude.{◌≡◌, ◌<◌, ◌++◌, length, IfOk, OnOk};
ghost use Rattle.mt_statistics.specs.Counts.{pair_counts};
ghost use Rattle.mt_statistics_page.specs.Page.{couples, first_totals, last_totals, members, open_programs, open_rows, open_table, program_row, programs, report_page, totals};

use crate::charts::{ThreeCounts, push_choice_chart, push_pair_chart, push_three_chart};
use crate::markup::{
    COUPLES, FIRST, FOOT, HEAD, NO_COUPLES, NO_OPEN_POSTS, OPEN_POSTS, PROGRAMS, TABLE_END, TOTALS,
};
use crate::pieces::{push_standing, push_text, push_total};
use mt_statistics::Statistics;
use mt_terms::ProgNo;
use std::alloc::{AllocError, Global};

/// Adds the totals of the applicants.
fn push_first_totals(text: &mut Vec<u8>, statistics: &Statistics<'_>) -> Result<(), AllocError>
    ensures ok { OnOk result (text.new.items ≡ text.old.items
        ++ first_totals statistics.now.registered.market statistics.now.places) }
{
    let all = u64::from(statistics.roster().applicants());
    let unmatched = u64::from(statistics.unmatched_singles());
    push_total(text, b"applicants", all)?;
    push_total(text, b"applicants with a place", statistics.filled_posts())?;
    push_total(text, b"singles without a place", unmatched)?;
    Ok(())
}

/// Adds the totals of the couples and the programs.
fn push_last_totals(text: &mut Vec<u8>, statistics: &Statistics<'_>) -> Result<(), AllocError>
    ensures ok { OnOk result (text.new.items ≡ text.old.items
        ++ last_totals statistics.now.registered.market statistics.now.places) }
{
    let couples = u64::from(statistics.roster().couples());
    let programs = u64::from(statistics.roster().programs());
    push_total(text, b"couples", couples)?;
    push_total(text, b"programs", programs)?;
    push_total(text, b"open posts", statistics.open_posts())?;
    Ok(())
}

/// Adds the section of the totals.
fn push_totals(text: &mut Vec<u8>, statistics: &Statistics<'_>) -> Result<(), AllocError>
    ensures ok { OnOk result (text.new.items ≡ text.old.items
        ++ totals statistics.now.registered.market statistics.now.places) }
{
    push_text(text, TOTALS)?;
    push_first_totals(text, statistics)?;
    push_last_totals(text, statistics)?;
    push_text(text, TABLE_END)?;
    Ok(())
}

/// Adds the chart of the couples.
fn push_members(text: &mut Vec<u8>, statistics: &Statistics<'_>) -> Result<(), AllocError>
    ensures ok { OnOk result (text.new.items ≡ text.old.items
        ++ members statistics.now.registered.market statistics.now.places) }
{
    let both = statistics.couples_with(2);
    let one = statistics.couples_with(1);
    let neither = statistics.couples_with(0);
    let counts = ThreeCounts {
        first: both,
        second: one,
        third: neither,
    };
    push_three_chart(text, COUPLES, b"both", b"one", b"neither", counts)
}

/// Adds the sections of the couples, with these counts of their pairs.
fn push_couples(
    text: &mut Vec<u8>,
    statistics: &Statistics<'_>,
    pairs: &[u32],
) -> Result<(), AllocError>
    requires { pairs.now ≡ pair_counts statistics.now.registered.market statistics.now.places }
    ensures ok { OnOk result (text.new.items ≡ text.old.items
        ++ couples statistics.now.registered.market statistics.now.places) }
{
    if statistics.roster().couples() == 0 {
        push_text(text, NO_COUPLES)
    } else {
        push_members(text, statistics)?;
        push_pair_chart(text, pairs, statistics.pairs_from(FIRST))?;
        Ok(())
    }
}

/// Adds the section of the programs.
fn push_programs(text: &mut Vec<u8>, statistics: &Statistics<'_>) -> Result<(), AllocError>
    ensures ok { OnOk result (text.new.items ≡ text.old.items
        ++ programs statistics.now.registered.market statistics.now.places) }
{
    let programs = statistics.program_counts();
    let counts = ThreeCounts {
        first: programs.full,
        second: programs.partly_filled,
        third: programs.empty,
    };
    push_three_chart(text, PROGRAMS, b"full", b"partly", b"empty", counts)
}

/// Adds the row of a program.
fn push_program_row(
    text: &mut Vec<u8>,
    statistics: &Statistics<'_>,
    program: ProgNo,
) -> Result<(), AllocError>
    requires { program < length statistics.now.registered.market.programs }
    ensures ok { OnOk result (text.new.items ≡ text.old.items
        ++ program_row statistics.now.registered statistics.now.places program) }
{
    let id = statistics.roster().program_id(program);
    push_standing(text, id, statistics.standing(program))
}

/// Adds the rows of the programs with open posts.
fn push_open_rows(text: &mut Vec<u8>, statistics: &Statistics<'_>) -> Result<(), AllocError>
    ensures ok { OnOk result (text.new.items ≡ text.old.items
        ++ open_rows statistics.now.registered statistics.now.places) }
{
    for number in 0..statistics.roster().programs() {
        let program = ProgNo(number);
        if !statistics.is_full(program) {
            push_program_row(text, statistics, program)?;
        }
    }
    Ok(())
}

/// Adds the table of the programs with open posts.
fn push_open_table(text: &mut Vec<u8>, statistics: &Statistics<'_>) -> Result<(), AllocError>
    ensures ok { OnOk result (text.new.items ≡ text.old.items
        ++ open_table statistics.now.registered statistics.now.places) }
{
    push_text(text, OPEN_POSTS)?;
    push_open_rows(text, statistics)?;
    push_text(text, TABLE_END)?;
    Ok(())
}

/// Adds the section of the programs with open posts.
fn push_open(text: &mut Vec<u8>, statistics: &Statistics<'_>) -> Result<(), AllocError>
    ensures ok { OnOk result (text.new.items ≡ text.old.items
        ++ open_programs statistics.now.registered statistics.now.places) }
{
    if statistics.program_counts().full == statistics.roster().programs() {
        push_text(text, NO_OPEN_POSTS)
    } else {
        push_open_table(text, statistics)
    }
}

/// The page of a report: the numbers of a match as HTML that needs no other file. The page is well-formed XML, since an
/// id has none of the bytes of markup. The error is want of memory.
pub fn report_page(alloc: Global, statistics: &Statistics<'_>) -> Result<Vec<u8>, AllocError>
    ensures { IfOk result (λ v. v.items
        ≡ report_page statistics.now.registered statistics.now.places) }
{
    let choices = statistics.choice_counts(alloc)?;
    let pairs = statistics.pair_counts(alloc)?;
    let later = statistics.choices_from(FIRST);
    let unmatched = statistics.unmatched_singles();
    let mut text = Vec::new(alloc);
    push_text(&mut text, HEAD)?;
    push_totals(&mut text, statistics)?;
    push_choice_chart(&mut text, &choices, later, unmatched)?;
    push_couples(&mut text, statistics, &pairs)?;
    push_programs(&mut text, statistics)?;
    push_open(&mut text, statistics)?;
    push_text(&mut text, FOOT)?;
    Ok(text)
}
