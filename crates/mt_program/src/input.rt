ghost use Rattle.std.specs.Prelude.{◌≡◌, None};

use crate::paths::is_standard;
use std::fs::File;
use std::io::{self, Error, Read};

/// A file that its first read opens, or standard input. So nothing waits for the other end of a pipe before the file's
/// turn.
#[derive(Drop)]
pub struct Input<'a> {
    rt: &'a HostRuntime,
    path: &'a str,
    file: Option<File>,
    unopened: Option<Error>,
}

impl<'a> Input<'a> {
    /// The file at a path, not opened yet, or standard input if the path is `-`.
    pub fn at(rt: &'a HostRuntime, path: &'a str) -> Self
        ensures path { result.path.now ≡ path.entry.now }
        ensures unopened { result.unopened ≡ None }
    {
        Input {
            rt,
            path,
            file: None,
            unopened: None,
        }
    }

    /// The path of the file.
    pub fn path(&self) -> &'a str
        ensures { result.now ≡ self.now.path.now }
    {
        self.path
    }

    /// Why the file couldn't be opened, if a read tried to.
    pub fn unopened(&self) -> Option<Error>
        ensures { result ≡ self.now.unopened }
    {
        self.unopened
    }
}

impl Read for Input<'_> {
    fn read(&mut self, buf: &mut [u8]) -> io::Result<usize> {
        if is_standard(self.path) {
            return self.rt.stdin().read(buf);
        }
        if let Some(file) = &mut self.file {
            return file.read(buf);
        }
        match File::open(self.rt, self.path) {
            Ok(mut file) => {
                let came = file.read(buf);
                self.file = Some(file);
                came
            }
            Err(error) => {
                self.unopened = Some(error);
                Err(error)
            }
        }
    }
}
