ghost use Rattle.std.specs.Prelude.{◌≡◌, ◌++◌, IfOk, OnOk};
ghost use Rattle.mt_statistics_text.specs.Text.{members_line, posts_lines, program_lines, report_text};

use crate::line::{push_counts, push_line, push_standing};
use mt_statistics::Statistics;
use mt_terms::ProgNo;
use std::alloc::{AllocError, Global};

/// Adds the line of the couples: how many have both members placed, one and neither.
fn push_members(text: &mut Vec<u8>, statistics: &Statistics<'_>) -> Result<(), AllocError>
    ensures ok { OnOk result (text.new.items ≡ text.old.items
        ++ members_line statistics.now.registered.market statistics.now.places) }
{
    let both = u64::from(statistics.couples_with(2));
    let one = u64::from(statistics.couples_with(1));
    let neither = u64::from(statistics.couples_with(0));
    push_line(text, b"couples", &[both, one, neither])
}

/// Adds the lines of the programs and of the posts at all of them together.
fn push_posts(text: &mut Vec<u8>, statistics: &Statistics<'_>) -> Result<(), AllocError>
    ensures ok { OnOk result (text.new.items ≡ text.old.items
        ++ posts_lines statistics.now.registered.market statistics.now.places) }
{
    let programs = statistics.program_counts();
    let full = u64::from(programs.full);
    let partly = u64::from(programs.partly_filled);
    let empty = u64::from(programs.empty);
    let filled = statistics.filled_posts();
    let open = statistics.open_posts();
    push_line(text, b"programs", &[full, partly, empty])?;
    push_line(text, b"posts", &[filled, open])
}

/// Adds the lines of all programs.
fn push_programs(text: &mut Vec<u8>, statistics: &Statistics<'_>) -> Result<(), AllocError>
    ensures ok { OnOk result (text.new.items ≡ text.old.items
        ++ program_lines statistics.now.registered statistics.now.places) }
{
    for number in 0..statistics.roster().programs() {
        let program = ProgNo(number);
        let id = statistics.roster().program_id(program);
        push_standing(text, id, statistics.standing(program))?;
    }
    Ok(())
}

/// The text of a report: the numbers of the singles, the couples and the programs, and a line for each program. Each
/// number is its definition's count. The error is want of memory.
pub fn report_text(alloc: Global, statistics: &Statistics<'_>) -> Result<Vec<u8>, AllocError>
    ensures { IfOk result (λ v. v.items
        ≡ report_text statistics.now.registered statistics.now.places) }
{
    let choices = statistics.choice_counts(alloc)?;
    let pairs = statistics.pair_counts(alloc)?;
    let unmatched = u64::from(statistics.unmatched_singles());
    let mut text = Vec::new(alloc);
    push_counts(&mut text, b"choice", &choices)?;
    push_line(&mut text, b"unmatched", &[unmatched])?;
    push_members(&mut text, statistics)?;
    push_counts(&mut text, b"pair", &pairs)?;
    push_posts(&mut text, statistics)?;
    push_programs(&mut text, statistics)?;
    Ok(text)
}
