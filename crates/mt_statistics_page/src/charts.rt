ghost use Rattle.std.specs.Prelude.{◌≡◌, ◌++◌, take, OnOk};
ghost use Rattle.mt_statistics_page.specs.Charts.{choice_chart, choice_most, largest_shown, later_row, number_rows, pair_chart, pair_table, three_chart, three_largest, three_rows};
ghost use Rattle.mt_statistics_page.specs.declared.markup.TheConstants.{FIRST};

use crate::markup::{CHOICES, FIRST, LATER, NO_PAIRS, PAIRS, TABLE_END};
use crate::pieces::{largest, push_bar_row, push_numbered_rows, push_text};
use std::alloc::AllocError;

/// The counts that have a row of their own.
fn first(counts: &[u32]) -> &[u32]
    ensures { result.now ≡ take FIRST counts.now }
{
    if counts.len() <= FIRST as usize {
        return counts;
    }
    &counts[..FIRST as usize]
}

/// The largest count of a chart of numbers on lists.
fn largest_shown(counts: &[u32], later: u32) -> u32
    ensures { result ≡ largest_shown counts.now later }
{
    largest(first(counts)).max(later)
}

/// Adds the row of the later numbers, if there are any.
fn push_later(text: &mut Vec<u8>, counts: &[u32], later: u32, most: u32) -> Result<(), AllocError>
    ensures ok { OnOk result (text.new.items
        ≡ text.old.items ++ later_row counts.now later most) }
{
    if counts.len() <= FIRST as usize {
        return Ok(());
    }
    push_bar_row(text, LATER.as_bytes(), later, most)
}

/// Adds the rows of a chart of numbers on lists.
fn push_numbers(text: &mut Vec<u8>, counts: &[u32], later: u32, most: u32) -> Result<(), AllocError>
    ensures ok { OnOk result (text.new.items
        ≡ text.old.items ++ number_rows counts.now later most) }
{
    push_numbered_rows(text, first(counts), most)?;
    push_later(text, counts, later, most)?;
    Ok(())
}

/// The largest count of the chart of choices.
fn choice_most(counts: &[u32], later: u32, unmatched: u32) -> u32
    ensures { result ≡ choice_most counts.now later unmatched }
{
    largest_shown(counts, later).max(unmatched)
}

/// Adds the chart of choices: how many singles have each, how many a later one, and how many no place.
pub(crate) fn push_choice_chart(
    text: &mut Vec<u8>,
    counts: &[u32],
    later: u32,
    unmatched: u32,
) -> Result<(), AllocError>
    ensures ok { OnOk result (text.new.items
        ≡ text.old.items ++ choice_chart counts.now later unmatched) }
{
    let most = choice_most(counts, later, unmatched);
    push_text(text, CHOICES)?;
    push_numbers(text, counts, later, most)?;
    push_bar_row(text, b"no place", unmatched, most)?;
    push_text(text, TABLE_END)?;
    Ok(())
}

/// Adds the table of pairs.
fn push_pair_table(text: &mut Vec<u8>, counts: &[u32], later: u32) -> Result<(), AllocError>
    ensures ok { OnOk result (text.new.items ≡ text.old.items ++ pair_table counts.now later) }
{
    let most = largest_shown(counts, later);
    push_text(text, PAIRS)?;
    push_numbers(text, counts, later, most)?;
    push_text(text, TABLE_END)?;
    Ok(())
}

/// Adds the chart of pairs: how many couples have each, and how many a later one.
pub(crate) fn push_pair_chart(
    text: &mut Vec<u8>,
    counts: &[u32],
    later: u32,
) -> Result<(), AllocError>
    ensures ok { OnOk result (text.new.items ≡ text.old.items ++ pair_chart counts.now later) }
{
    if counts.len() == 0 {
        push_text(text, NO_PAIRS)
    } else {
        push_pair_table(text, counts, later)
    }
}

/// The largest of three counts.
fn three_largest(first: u32, second: u32, third: u32) -> u32
    ensures { result ≡ three_largest first second third }
{
    first.max(second).max(third)
}

/// The counts of a chart with three rows.
#[derive(Clone, Copy)]
pub(crate) struct ThreeCounts {
    pub first: u32,
    pub second: u32,
    pub third: u32,
}

/// Adds three rows: a label each, and how many there are of it.
fn push_three_rows(
    text: &mut Vec<u8>,
    first: &[u8],
    second: &[u8],
    third: &[u8],
    counts: ThreeCounts,
    most: u32,
) -> Result<(), AllocError>
    ensures ok { OnOk result (text.new.items ≡ text.old.items ++ three_rows
        first.now second.now third.now counts.first counts.second counts.third most) }
{
    push_bar_row(text, first, counts.first, most)?;
    push_bar_row(text, second, counts.second, most)?;
    push_bar_row(text, third, counts.third, most)?;
    Ok(())
}

/// Adds a chart with a heading and three rows: a label each, and how many there are of it.
pub(crate) fn push_three_chart(
    text: &mut Vec<u8>,
    heading: &str,
    first: &[u8],
    second: &[u8],
    third: &[u8],
    counts: ThreeCounts,
) -> Result<(), AllocError>
    ensures ok { OnOk result (text.new.items ≡ text.old.items ++ three_chart
        heading.now first.now second.now third.now counts.first counts.second counts.third) }
{
    let most = three_largest(counts.first, counts.second, counts.third);
    push_text(text, heading)?;
    push_three_rows(text, first, second, third, counts, most)?;
    push_text(text, TABLE_END)?;
    Ok(())
}
