/// What an edit did to the text: the bytes `start..end` of the old text gave way to `added` new ones.
#[derive(Clone, Copy, Debug, PartialEq, Eq)]
pub struct Splice {
    /// Where the change begins, in bytes from the start of the text.
    pub start: usize,
    /// Where it ended in the old text.
    pub end: usize,
    /// How many bytes are there now.
    pub added: usize,
    /// How many bytes of the new text are scanned for it: those of the lines that the change touches.
    pub scanned: usize,
}
