//! The words after the name of the program, and what they ask for.

use crate::expect::holds_for;
use mt_args::{AskEnd, Asked, asked};
use mt_terms::Options;
use std::alloc::{AllocError, Global};
use std::test::Fail;

// What words may ask for: a run of a file with options, the help, or the version. Words that aren't taken have this
// complaint, or any.
enum Wanted<'a> {
    Run(Option<&'a str>, Options),
    // The default options, with orders of couples and whether couples are set aside.
    InWays(u32, bool),
    Help,
    Version,
    NotTaken,
    Complaint(&'a str),
}

// Whether this is the file that is wanted.
fn is_file(file: &Option<String>, wanted: Option<&str>) -> bool {
    match file {
        Some(path) => wanted == Some(path.as_str()),
        None => wanted.is_none(),
    }
}

// Whether this is the answer that is wanted. The version's own words are compared in the program's tests.
fn is_wanted(answer: &Result<Asked, AskEnd>, wanted: &Wanted<'_>) -> bool {
    match (answer, wanted) {
        (
            Ok(
                Asked::Run {
                    file,
                    options,
                    orders,
                    set_aside,
                },
            ),
            Wanted::Run(wanted_file, wanted_options),
        ) => {
            is_file(file, *wanted_file)
                && *options == *wanted_options
                && *orders == 1
                && !*set_aside
        }
        (
            Ok(
                Asked::Run {
                    file,
                    options,
                    orders,
                    set_aside,
                },
            ),
            Wanted::InWays(wanted_orders, wanted_aside),
        ) => {
            file.is_none()
                && *options == USUAL
                && *orders == *wanted_orders
                && *set_aside == *wanted_aside
        }
        (Ok(Asked::Help(_)), Wanted::Help) => true,
        (Ok(Asked::Version(text)), Wanted::Version) => text.as_str().starts_with("nrmatch "),
        (Err(AskEnd::Usage(_)), Wanted::NotTaken) => true,
        (Err(AskEnd::Usage(complaint)), Wanted::Complaint(text)) => complaint.as_str() == *text,
        _ => false,
    }
}

// Whether the words ask for what is wanted.
fn asks_for(alloc: Global, words: &[&str], wanted: &Wanted<'_>) -> Result<bool, AllocError> {
    let mut owned = Vec::new(alloc);
    for word in words {
        owned.push(String::from_str(alloc, word)?)?;
    }
    Ok(is_wanted(&asked(alloc, owned.as_slice()), wanted))
}

const USUAL: Options = Options {
    workers: 4,
    budget: 1_000_000,
};

const MOST: Options = Options {
    workers: 64,
    budget: 4_294_967_295,
};

const LEAST: Options = Options {
    workers: 1,
    budget: 1,
};

const OUT_OF_RANGE: &str = "\
error: invalid value '65' for '--workers <N>': 65 is not in 1..=64

For more information, try '--help'.
";

const UNEXPECTED: &str = "\
error: unexpected argument 'g' found

Usage: nrmatch [OPTIONS] [FILE]

For more information, try '--help'.
";

const ASKED: &[(&[&str], Wanted<'static>)] = &[
    (&[], Wanted::Run(None, USUAL)),
    (
        &["--workers", "64", "--budget", "4294967295", "f"],
        Wanted::Run(Some("f"), MOST),
    ),
    (
        &["f", "--workers=1", "--budget=+01"],
        Wanted::Run(Some("f"), LEAST),
    ),
    (&["--orders", "1"], Wanted::InWays(1, false)),
    (&["--orders=1000"], Wanted::InWays(1000, false)),
    (&["--set-aside"], Wanted::InWays(1, true)),
    (&["--set-aside", "--orders", "7"], Wanted::InWays(7, true)),
    (&["--orders", "0"], Wanted::NotTaken),
    (&["--orders", "1001"], Wanted::NotTaken),
    (&["--orders", "x"], Wanted::NotTaken),
    (&["--orders"], Wanted::NotTaken),
    (&["--orders", "2", "--orders", "2"], Wanted::NotTaken),
    (&["--set-aside", "--set-aside"], Wanted::NotTaken),
    (&["--set-aside=true"], Wanted::NotTaken),
    // After two hyphens each word is a file.
    (&["--", "--help"], Wanted::Run(Some("--help"), USUAL)),
    (&["--workers", "0"], Wanted::NotTaken),
    (&["--workers", "65"], Wanted::NotTaken),
    (&["--workers", "x"], Wanted::NotTaken),
    (&["--workers"], Wanted::NotTaken),
    (&["--budget", "0"], Wanted::NotTaken),
    (&["--budget", "4294967296"], Wanted::NotTaken),
    (&["-w", "8"], Wanted::NotTaken),
    (&["f", "g"], Wanted::NotTaken),
    (&["--none"], Wanted::NotTaken),
    (&["--", "f", "--help"], Wanted::NotTaken),
    // The first fault or request decides.
    (&["--none", "--help"], Wanted::NotTaken),
    (&["--none", "--version"], Wanted::NotTaken),
    (&["--help"], Wanted::Help),
    (&["-h"], Wanted::Help),
    (&["--help", "--none"], Wanted::Help),
    (&["--help", "--version"], Wanted::Help),
    (&["--version"], Wanted::Version),
    (&["-V", "--none"], Wanted::Version),
    // The complaint says what is wrong.
    (&["--workers", "65"], Wanted::Complaint(OUT_OF_RANGE)),
    (&["f", "g"], Wanted::Complaint(UNEXPECTED)),
];

#[test]
fn words_give_what_is_asked_for(rt: HostRuntime) -> Result<(), Fail> {
    for (words, wanted) in ASKED {
        holds_for(&rt, asks_for(rt.alloc(), words, wanted)?, words);
    }
    Ok(())
}
