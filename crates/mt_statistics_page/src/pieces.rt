ghost use Rattle.std.specs.Prelude.{◌≡◌, ◌+◌, ◌++◌, ◌<◌, ◌≤◌, ◌^◌, length, decimal, OnOk};
ghost use Rattle.mt_statistics_page.specs.Pieces.{bar, bar_cells, bar_length, bar_name, bar_row, bar_shape, cell, header, largest, numbered_rows, posts_cells, rank_cell, standing_row, total_row};

use crate::markup::WIDTH;
use itoa::Buffer;
use mt_statistics::Standing;
use std::alloc::AllocError;

/// Adds a fixed text.
pub(crate) fn push_text(text: &mut Vec<u8>, piece: &str) -> Result<(), AllocError>
    ensures ok { OnOk result (text.new.items ≡ text.old.items ++ piece.now) }
{
    text.extend_from_slice(piece.as_bytes())
}

/// Adds a number.
fn push_number(text: &mut Vec<u8>, number: u64) -> Result<(), AllocError>
    ensures ok { OnOk result (text.new.items ≡ text.old.items ++ decimal number) }
{
    let mut digits = Buffer::new();
    text.extend_from_slice(digits.format(number).as_bytes())
}

/// Adds a number between two texts.
fn push_between(
    text: &mut Vec<u8>,
    before: &[u8],
    number: u64,
    after: &[u8],
) -> Result<(), AllocError>
    ensures ok { OnOk result (text.new.items
        ≡ text.old.items ++ (before.now ++ decimal number ++ after.now)) }
{
    text.extend_from_slice(before)?;
    push_number(text, number)?;
    text.extend_from_slice(after)?;
    Ok(())
}

/// Adds a cell with a number.
pub(crate) fn push_cell(text: &mut Vec<u8>, number: u64) -> Result<(), AllocError>
    ensures ok { OnOk result (text.new.items ≡ text.old.items ++ cell number) }
{
    push_between(text, b"<td class='n'>", number, b"</td>")
}

/// Adds a cell with a rank, counted from 1. The cell is empty if there is none.
pub(crate) fn push_rank_cell(text: &mut Vec<u8>, rank: Option<u32>) -> Result<(), AllocError>
    ensures ok { OnOk result (text.new.items ≡ text.old.items ++ rank_cell rank) }
{
    match rank {
        Some(rank) => push_cell(text, u64::from(rank) + 1),
        None => text.extend_from_slice(b"<td class='n'></td>"),
    }
}

/// How long the bar of a number is.
fn bar_length(count: u32, most: u32) -> u64
    ensures { result ≡ bar_length count most }
{
    u64::from(count) * WIDTH / u64::from(most.max(1))
}

/// Begins the bar of a number.
fn push_name(text: &mut Vec<u8>, count: u32) -> Result<(), AllocError>
    ensures ok { OnOk result (text.new.items ≡ text.old.items ++ bar_name count) }
{
    push_between(
        text,
        b"<svg xmlns='http://www.w3.org/2000/svg' role='img' aria-label='a bar for ",
        u64::from(count),
        b"' viewBox='0 0 400 14' preserveAspectRatio='none'>",
    )
}

/// Ends the bar of a number.
fn push_shape(text: &mut Vec<u8>, count: u32, most: u32) -> Result<(), AllocError>
    ensures ok { OnOk result (text.new.items ≡ text.old.items ++ bar_shape count most) }
{
    push_between(
        text,
        b"<rect width='",
        bar_length(count, most),
        b"' height='14'/></svg>",
    )
}

/// Adds the bar of a number.
fn push_bar(text: &mut Vec<u8>, count: u32, most: u32) -> Result<(), AllocError>
    ensures ok { OnOk result (text.new.items ≡ text.old.items ++ bar count most) }
{
    push_name(text, count)?;
    push_shape(text, count, most)?;
    Ok(())
}

/// Begins a row with its header.
pub(crate) fn push_header(text: &mut Vec<u8>, label: &[u8]) -> Result<(), AllocError>
    ensures ok { OnOk result (text.new.items ≡ text.old.items ++ header label.now) }
{
    text.extend_from_slice(b"<tr><th scope='row'>")?;
    text.extend_from_slice(label)?;
    text.extend_from_slice(b"</th>")?;
    Ok(())
}

/// Adds a row of the totals.
pub(crate) fn push_total(text: &mut Vec<u8>, label: &[u8], count: u64) -> Result<(), AllocError>
    ensures ok { OnOk result (text.new.items ≡ text.old.items ++ total_row label.now count) }
{
    push_header(text, label)?;
    push_cell(text, count)?;
    text.extend_from_slice(b"</tr>\n")?;
    Ok(())
}

/// Ends a row of a chart with a number and its bar.
fn push_bar_cells(text: &mut Vec<u8>, count: u32, most: u32) -> Result<(), AllocError>
    ensures ok { OnOk result (text.new.items ≡ text.old.items ++ bar_cells count most) }
{
    push_cell(text, u64::from(count))?;
    text.extend_from_slice(b"<td class='b'>")?;
    push_bar(text, count, most)?;
    text.extend_from_slice(b"</td></tr>\n")?;
    Ok(())
}

/// Adds a row of a chart: what is counted, how many there are, and the bar of that number.
pub(crate) fn push_bar_row(
    text: &mut Vec<u8>,
    label: &[u8],
    count: u32,
    most: u32,
) -> Result<(), AllocError>
    ensures ok { OnOk result (text.new.items ≡ text.old.items ++ bar_row label.now count most) }
{
    push_header(text, label)?;
    push_bar_cells(text, count, most)?;
    Ok(())
}

/// The largest of these counts, or 0 if there is none.
pub(crate) fn largest(counts: &[u32]) -> u32
    ensures { result ≡ largest counts.now }
{
    let mut most = 0;
    for count in counts {
        most = most.max(*count);
    }
    most
}

/// Adds a row for a number of a list.
fn push_numbered(text: &mut Vec<u8>, number: u64, count: u32, most: u32) -> Result<(), AllocError>
    ensures ok { OnOk result (text.new.items ≡ text.old.items
        ++ bar_row (decimal number) count most) }
{
    push_between(text, b"<tr><th scope='row'>", number, b"</th>")?;
    push_bar_cells(text, count, most)?;
    Ok(())
}

/// Adds a row for each of these counts, which are numbered from 1.
pub(crate) fn push_numbered_rows(
    text: &mut Vec<u8>,
    counts: &[u32],
    most: u32,
) -> Result<(), AllocError>
    ensures ok { OnOk result (text.new.items ≡ text.old.items ++ numbered_rows counts.now most) }
{
    for at in 0..counts.len() {
        push_numbered(text, at as u64 + 1, counts[at], most)?;
    }
    Ok(())
}

/// Adds the first cells of the row of a program: its id and its posts.
fn push_posts(text: &mut Vec<u8>, id: &[u8], quota: u32, filled: u32) -> Result<(), AllocError>
    ensures ok { OnOk result (text.new.items ≡ text.old.items ++ posts_cells id.now quota filled) }
{
    push_header(text, id)?;
    push_cell(text, u64::from(quota))?;
    push_cell(text, u64::from(filled))?;
    Ok(())
}

/// Adds the row of the program with an id.
pub(crate) fn push_standing(
    text: &mut Vec<u8>,
    id: &[u8],
    standing: Standing,
) -> Result<(), AllocError>
    ensures ok { OnOk result (text.new.items ≡ text.old.items ++ standing_row id.now standing) }
{
    push_posts(text, id, standing.quota, standing.filled)?;
    push_cell(text, standing.listed)?;
    push_rank_cell(text, standing.last)?;
    text.extend_from_slice(b"</tr>\n")?;
    Ok(())
}
