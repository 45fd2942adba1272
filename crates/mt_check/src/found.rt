/// A finding's code, 0 for a stable match and 1 for any other, and its line.
#[derive(Drop)]
pub(crate) struct Found {
    pub(crate) code: u16,
    pub(crate) text: Vec<u8>,
}
