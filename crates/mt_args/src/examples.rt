//! What the definition of the command line gives on worked words. Each function does nothing. Its contract is the
//! example.

ghost use Rattle.mt_args.specs.Examples.{AfterHyphensIsFile, AreMisuse, AreWrongWays, AskForHelp, AskForVersion, DefaultsStand, HyphenIsStandardInput, ManyWaysAreTaken, MostIsTaken, OneWayByDefault};

/// No words give no file, 4 workers and a budget of 1,000,000.
pub fn no_words()
    ensures { DefaultsStand }
{}

/// The largest values of both options, and a file.
pub fn largest_values()
    ensures { MostIsTaken }
{}

/// No words give one order of the couples, and none is set aside.
pub fn one_way_by_default()
    ensures { OneWayByDefault }
{}

/// The most orders, and couples set aside.
pub fn many_ways()
    ensures { ManyWaysAreTaken }
{}

/// Numbers of orders outside their limits, a word that is no number, an option without a value, a flag that is given
/// twice and one with a value are misuse.
pub fn wrong_ways()
    ensures { AreWrongWays }
{}

/// After `--` each word is a file, whatever it looks like.
pub fn after_two_hyphens()
    ensures { AfterHyphensIsFile }
{}

/// A single hyphen is standard input, and after `./` it is the name of a file.
pub fn hyphen()
    ensures { HyphenIsStandardInput }
{}

/// Numbers outside their limits, a word that is no number, two files, an unknown option, an option without a value and
/// one that is given twice are misuse.
pub fn misuse()
    ensures { AreMisuse }
{}

/// Words with `--help` or `-h`, before any fault, ask for help.
pub fn requests_for_help()
    ensures { AskForHelp }
{}

/// With `--version` or `-V`, before any fault and any request for help, they ask for the version.
pub fn requests_for_the_version()
    ensures { AskForVersion }
{}
