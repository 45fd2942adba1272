/// How the numbers of a match are written.
#[derive(Clone, Copy)]
pub enum Form {
    /// As lines, a line for each number.
    Lines,
    /// As a page of HTML that needs no other file.
    Page,
}
