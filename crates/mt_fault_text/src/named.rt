ghost use Rattle.std.specs.Prelude.{◌≡◌};
ghost use Rattle.mt_fault_text.specs.Named.{named_with};

use mt_terms::codes::UNKNOWN_APPLICANT;

/// The code that a match names, of some faults and one more. A fault of the first pass comes before the others, and of
/// two such the earlier.
pub(crate) fn named_with(named: Option<u16>, code: u16) -> u16
    ensures { result ≡ named_with named code }
{
    match named {
        Some(first) if first < UNKNOWN_APPLICANT || code >= UNKNOWN_APPLICANT => first,
        _ => code,
    }
}
