//! Why a page writes ids as they are. The function does nothing. Its contract is the law.

ghost use Rattle.mt_statistics_page.specs.Laws.{IdsAreNoMarkup};

/// No id of a program has a byte of markup.
pub fn ids_are_no_markup()
    ensures { IdsAreNoMarkup }
{}
