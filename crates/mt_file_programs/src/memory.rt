ghost use Rattle.std.specs.Prelude.{◌≡◌, ◌≤◌, [], length};
ghost use Rattle.mt_files.specs.Text.{refused_line};
ghost use Rattle.mt_terms.specs.declared.codes.TheConstants.{OUT_OF_MEMORY};

use mt_files::{FileRefusalLine, Source, refused};
use mt_terms::codes::OUT_OF_MEMORY;

/// The refusal line for want of memory of a program whose lines begin with this word. It names the market.
pub fn no_memory(word: &[u8]) -> FileRefusalLine
    requires { length word.now ≤ 7 }
    ensures { result ≡ refused_line word.now Source.Market OUT_OF_MEMORY 0 [] }
{
    refused(word, Source::Market, OUT_OF_MEMORY, 0, b"")
}
