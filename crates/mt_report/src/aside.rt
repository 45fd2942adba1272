ghost use Rattle.std.specs.Prelude.{◌≡◌, ◌<◌, ◌++◌, ℕ, length, IfOk, IsTrue, OnOk};
ghost use Rattle.mt_terms.specs.Lists.{has};
ghost use Rattle.mt_terms.specs.Places.{ArePlaces};
ghost use Rattle.mt_report.specs.Aside.{aside_lines, couple_aside_line, published_aside as published_aside_text};

use crate::counts::filled_counts;
use crate::text::{push_applicants, push_programs, push_totals, text_of};
use mt_market::Roster;
use mt_terms::{CoupleNo, Match};
use std::alloc::{AllocError, Global};

/// Adds the line of a couple that is set aside.
fn push_couple(text: &mut Vec<u8>, id: &[u8]) -> Result<(), AllocError>
    ensures ok { OnOk result (text.new.items ≡ text.old.items ++ couple_aside_line id.now) }
{
    text.extend_from_slice(b"aside,")?;
    text.extend_from_slice(id)?;
    text.push(b'\n')?;
    Ok(())
}

/// Adds the lines of all couples that are set aside.
fn push_couples(text: &mut Vec<u8>, roster: &Roster, aside: &[CoupleNo]) -> Result<(), AllocError>
    requires { (c : ℕ) → IsTrue (has aside.now c) → c < length roster.now.market.couples }
    ensures ok { OnOk result (text.new.items ≡ text.old.items ++ aside_lines roster.now.names aside.now) }
{
    for couple in aside {
        push_couple(text, roster.couple_id(*couple))?;
    }
    Ok(())
}

/// The text of a match with couples set aside: that of `published` in version 2, with a line for each couple that is
/// set aside before the totals. The roster is that of the file, in which they have their pairs. The error is want of
/// memory.
pub fn published_aside(
    alloc: Global,
    roster: &Roster,
    matched: &Match,
    received: &[u32],
    aside: &[CoupleNo],
) -> Result<Vec<u8>, AllocError>
    requires places { ArePlaces roster.now.market matched.now.places }
    requires received { length received.now ≡ length roster.now.market.programs }
    requires aside { (c : ℕ) → IsTrue (has aside.now c) → c < length roster.now.market.couples }
    ensures { IfOk result (λ v. v.items ≡ published_aside_text roster.now.market roster.now.names
        matched.now.places received.now aside.now) }
{
    let counts = filled_counts(alloc, roster.programs() as usize, matched.places.as_slice())?;
    let mut text = text_of(alloc, roster, b"match,2,published\n")?;
    push_applicants(&mut text, roster, matched)?;
    push_programs(&mut text, roster, matched, &counts, received)?;
    push_couples(&mut text, roster, aside)?;
    push_totals(&mut text, roster, matched, &counts)?;
    Ok(text)
}
