ghost use Rattle.mt_terms.specs.Examples.Text.{CrossedText, TwoPostsText, SingleBetweenText, RefusalLines, BytesOfAnId};

/// The text of a match of singles.
pub fn crossed_text()
    ensures { CrossedText }
{}

/// The text of a match in which somebody has no place.
pub fn two_posts_text()
    ensures { TwoPostsText }
{}

/// The text of a match with a couple.
pub fn single_between_text()
    ensures { SingleBetweenText }
{}

/// Refusal lines.
pub fn refusal_lines()
    ensures { RefusalLines }
{}

/// Which bytes an id has.
pub fn bytes_of_an_id()
    ensures { BytesOfAnId }
{}
