ghost use Rattle.std.specs.Prelude.{◌≡◌};
ghost use Rattle.clap.specs.Words.{app_of};
ghost use Rattle.mt_program.specs.CommandLine.{plain_app};

use clap::Command;
use std::alloc::Global;

/// The version of the programs, and the logic of the toolchain that they were proved with.
const VERSION: &str = "\
1.0.0
Proved with Rattle, logic dac8208d650f15bf.";

/// A command with no argument, whose words begin after the program's name. Its help says what it is about, and ends
/// with its exit statuses.
pub fn plain_command<'a>(
    alloc: Global,
    name: &'a str,
    about: &'a str,
    statuses: &'a str,
) -> Command<'a>
    ensures { app_of result ≡ plain_app name.entry.now }
{
    Command::new(alloc, name)
        .no_binary_name(true)
        .version(VERSION)
        .about(about)
        .after_help(statuses)
}
