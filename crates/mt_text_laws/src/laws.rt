ghost use Rattle.mt_text_laws.specs.Laws.{PublishedAsideIsRead, PublishedIsRead};

/// The text of a match is read as its places, with the counts of its records. Each program received as many proposals
/// as there are applicants, at the most.
pub fn published_is_read()
    ensures { PublishedIsRead }
{}

/// The text of a match with couples set aside is read as its places, its counts and these couples.
pub fn published_aside_is_read()
    ensures { PublishedAsideIsRead }
{}
