use mt_terms::Options;
use thiserror::Error;

/// What the words of a command line ask for.
#[derive(Drop)]
pub enum Asked {
    /// A run of the match.
    Run {
        /// The path of the input. If there is none, the input is standard input: FILE is left out, or `-`.
        file: Option<String>,
        /// The options of the run: 1 to 64 workers, and a budget of at least 1.
        options: Options,
        /// How many orders of the couples are tried, 1 to 1,000.
        orders: u32,
        /// Whether couples are set aside if no order ends.
        set_aside: bool,
    },
    /// The help text, which goes to the standard output.
    Help(String),
    /// The text of the version, which goes to the standard output.
    Version(String),
}

/// Why the words of a command line are no command.
#[derive(Debug, Drop, Error)]
pub enum AskEnd {
    /// The words break the usage. The text says how, and goes to the standard error.
    #[error("{0}")]
    Usage(String),
    /// Memory was refused.
    #[error("out of memory")]
    Memory,
}
