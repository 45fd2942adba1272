ghost use Rattle.std.specs.Prelude.{◌≤◌, ◌⊎◌, length};
ghost use Rattle.mt_file_programs.specs.Status.{IsUnreadable};

use crate::unasked::end_unasked;
use mt_program::words_of;

// No clause can say which words these are, since std says nothing of what it gives.
/// The exit status of a program: what a function gives for the words after the program's name. For words that can't be
/// read it is that of misuse, or of want of memory, whose line begins with `word`.
pub fn exit_status<F: FnOnce(&[String]) -> u8>(rt: &HostRuntime, word: &[u8], obey: F) -> u8
    requires word { length word.now ≤ 7 }
    requires obey { (words : _) → F.pre obey words }
    ensures { ((words : _) × F.post obey words result) ⊎ IsUnreadable result }
{
    match words_of(rt) {
        Ok(words) => obey(words.as_slice()),
        Err(unasked) => end_unasked(rt, word, &unasked),
    }
}
