//! What the definitions of the command line say, in words. Each function does nothing. Its contract is the law.

ghost use Rattle.mt_args.specs.Laws.{HelpIsNotTaken, RefusalIsExact};

/// `clap` has two definitions: which words a command takes, and the kinds of error at the others. For this command
/// they agree: words that are taken have no kind of error, and all others have exactly one.
pub fn refusal_is_exact()
    ensures { RefusalIsExact }
{}

/// Words that ask for help aren't taken.
pub fn help_is_not_taken()
    ensures { HelpIsNotTaken }
{}
