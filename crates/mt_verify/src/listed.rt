ghost use Rattle.std.specs.Prelude.{◌≡◌};
ghost use Rattle.mt_verify.specs.Listed.{is_own_pair, is_own_place};

use mt_terms::ProgNo;

/// Whether a single's place is on its list, or none.
pub(crate) fn is_own_place(list: &[ProgNo], place: Option<ProgNo>) -> bool
    ensures { result ≡ is_own_place list.now place }
{
    match place {
        None => true,
        Some(program) => list.contains(&program),
    }
}

/// Whether the places of a couple's members are a pair of its list, or both none.
pub(crate) fn is_own_pair(
    list: &[(Option<ProgNo>, Option<ProgNo>)],
    first: Option<ProgNo>,
    second: Option<ProgNo>,
) -> bool
    ensures { result ≡ is_own_pair list.now first second }
{
    (first.is_none() && second.is_none()) || list.contains(&(first, second))
}
