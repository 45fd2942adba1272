ghost use Rattle.std.specs.Prelude.{◌≡◌, ◌&&◌, ◌==◌, Some, position};
ghost use Rattle.std.specs.Option.{option_eq};

use mt_terms::ProgNo;

/// The position of a place on a single's list.
pub(crate) fn position_of_program(list: &[ProgNo], place: Option<ProgNo>) -> Option<usize>
    ensures { result ≡ position (λ p. option_eq ◌==◌ place (Some p)) list.now }
{
    list.iter().position(|program| place == Some(*program))
}

/// The position of two places on a couple's list.
pub(crate) fn position_of_pair(
    list: &[(Option<ProgNo>, Option<ProgNo>)],
    places: (Option<ProgNo>, Option<ProgNo>),
) -> Option<usize>
    ensures { result ≡ position (λ pair. option_eq ◌==◌ places.0 pair.0 && option_eq ◌==◌ places.1 pair.1) list.now }
{
    list.iter().position(|pair| places == *pair)
}
