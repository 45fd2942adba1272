ghost use Rattle.std.specs.Prelude.{◌≡◌};
ghost use Rattle.std.specs.Option.{option_copied};
ghost use Rattle.mt_program.specs.CommandLine.{is_standard, path_by};

/// Whether a word for a file means standard input.
pub fn is_standard(word: &str) -> bool
    ensures { result ≡ is_standard word.now }
{
    word == "-"
}

/// The path of the file that a word means, or nothing for standard input.
pub fn path_by(word: Option<&str>) -> Option<&str>
    ensures { option_copied result ≡ path_by (option_copied word.entry) }
{
    match word {
        Some(word) if !is_standard(word) => Some(word),
        _ => None,
    }
}
