/// A place in the texts: the number of a file among them, and a line and a column, both from 1.
/// Columns count bytes. Places are ordered by file, then line, then column.
#[derive(Clone, Copy, Debug, PartialEq, Eq, PartialOrd, Ord)]
pub struct Place {
    pub file: u16,
    pub line: u32,
    pub col: u32,
}
