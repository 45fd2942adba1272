ghost use Rattle.mt_file_laws.specs.Text.{RefusalIsOneRecord};

/// A refusal line is one record of seven fields, and no line of an applicant, if the id that it names is an id.
pub fn refusal_is_one_record()
    ensures { RefusalIsOneRecord }
{}
