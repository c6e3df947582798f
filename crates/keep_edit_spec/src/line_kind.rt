/// Where the line comes that an insert adds.
#[derive(Clone, Copy, Debug, PartialEq, Eq)]
pub enum LineKind {
    /// At the end of a body.
    LastInBody,
    /// In a table that dotted keys make, after the last line of it.
    OfDotted,
    /// In a table that is there because headers go through it, behind the header that the insert brings.
    WithHeader,
}
