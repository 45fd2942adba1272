ghost use Rattle.std.specs.Prelude.{◌≡◌, ◌++◌, ◌∷◌, codes, decimal, map, OnOk};
ghost use Rattle.mt_terms.specs.Text.{line};
ghost use Rattle.mt_statistics_text.specs.Text.{counted_lines, rank_text, standing_line};

use itoa::Buffer;
use mt_statistics::Standing;
use std::alloc::AllocError;

/// Adds a comma and a number.
fn push_number(text: &mut Vec<u8>, number: u64) -> Result<(), AllocError>
    ensures ok { OnOk result (text.new.items ≡ text.old.items ++ codes "," ++ decimal number) }
{
    let mut digits = Buffer::new();
    text.push(b',')?;
    text.extend_from_slice(digits.format(number).as_bytes())
}

/// Adds a comma and a rank, counted from 1. Nothing follows the comma if there is none.
fn push_rank(text: &mut Vec<u8>, rank: Option<u32>) -> Result<(), AllocError>
    ensures ok { OnOk result (text.new.items ≡ text.old.items ++ codes "," ++ rank_text rank) }
{
    match rank {
        Some(rank) => push_number(text, u64::from(rank) + 1),
        None => {
            text.push(b',')?;
            Ok(())
        }
    }
}

/// Adds a line of a word and some numbers.
pub(crate) fn push_line(text: &mut Vec<u8>, word: &[u8], numbers: &[u64]) -> Result<(), AllocError>
    ensures ok { OnOk result (text.new.items
        ≡ text.old.items ++ line (word.now ∷ map decimal numbers.now)) }
{
    text.extend_from_slice(word)?;
    for number in numbers {
        push_number(text, *number)?;
    }
    text.push(b'\n')?;
    Ok(())
}

/// Adds a line for each of these counts, which are numbered from 1.
pub(crate) fn push_counts(text: &mut Vec<u8>, word: &[u8], counts: &[u32]) -> Result<(), AllocError>
    ensures ok { OnOk result (text.new.items
        ≡ text.old.items ++ counted_lines word.now counts.now) }
{
    for at in 0..counts.len() {
        let number = at as u64 + 1;
        let count = u64::from(counts[at]);
        push_line(text, word, &[number, count])?;
    }
    Ok(())
}

/// Adds the line of the program with an id.
pub(crate) fn push_standing(
    text: &mut Vec<u8>,
    id: &[u8],
    standing: Standing,
) -> Result<(), AllocError>
    ensures ok { OnOk result (text.new.items ≡ text.old.items ++ standing_line id.now standing) }
{
    text.extend_from_slice(b"program,")?;
    text.extend_from_slice(id)?;
    push_number(text, u64::from(standing.quota))?;
    push_number(text, u64::from(standing.filled))?;
    push_number(text, standing.listed)?;
    push_rank(text, standing.last)?;
    text.push(b'\n')?;
    Ok(())
}
