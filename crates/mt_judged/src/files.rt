ghost use Rattle.std.specs.Prelude.{◌≡◌, ◌+◌, ◌<◌, ◌^◌, if◌then◌else◌, IfOk, IsTrue};
ghost use Rattle.mt_order_laws.specs.Reordered.{set_aside_registered};
ghost use Rattle.mt_report.specs.Drains.{contents_of, failures_of, is_flushed};
ghost use Rattle.mt_input.specs.Refusals.{fault_of};
ghost use Rattle.mt_files.specs.Answer.{IsGiven};
ghost use Rattle.mt_files.specs.Refusals.{IsNamedRefusalOf};
ghost use Rattle.mt_judged.specs.Answer.{fault_answer};

use mt_files::{Files, Source, refuse};
use mt_pages::Outcome;
use mt_reordered::set_aside;
use mt_report::Drain;
use mt_terms::Refusal;
use std::alloc::{AllocError, Global};
use std::io::Write;

/// The files with the market in which the match is judged: the couples that it sets aside want nothing.
pub fn judged(alloc: Global, files: Files) -> Result<Files, AllocError>
    ensures roster { IfOk result (λ judged. judged.roster
        ≡ set_aside_registered files.submitted.aside files.roster) }
    ensures submitted { IfOk result (λ judged. judged.submitted ≡ files.submitted) }
{
    let Files { roster, submitted } = files;
    let aside = submitted.aside();
    if aside.is_empty() {
        return Ok(Files { roster, submitted });
    }
    let others = set_aside(alloc, &roster, aside)?;
    Ok(Files {
        roster: others,
        submitted,
    })
}

/// Writes the refusal line of a file.
pub fn refuse_file<W: Write>(drain: &mut Drain<W>, file: Source, refusal: &Refusal) -> Outcome
    requires named { IsNamedRefusalOf file refusal.now.code refusal.now.row refusal.now.id }
    requires failures { failures_of drain.old + 1 < 2 ^ 64 }
    ensures given { IsGiven (fault_answer file (fault_of refusal.now))
        (contents_of W.contents drain.old) (contents_of W.contents drain.new) result.code result.whole }
    ensures writer { failures_of drain.new
        ≡ failures_of drain.old + (if result.whole then 0 else 1) }
    ensures flushed { IsTrue result.whole → IsTrue (is_flushed drain.new) }
{
    let ended = refuse(drain, b"check", file, refusal);
    Outcome {
        code: ended.code,
        whole: ended.whole,
    }
}
