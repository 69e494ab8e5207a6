//! Places as keys.

/// A place, as tables by hash know it.
#[derive(Clone, Copy, PartialEq, Eq, Hash)]
pub(crate) struct PlaceKey {
    pub(crate) file: u16,
    pub(crate) line: u32,
    pub(crate) col: u32,
}
