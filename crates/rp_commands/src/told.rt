//! What is told of a fault of a file.

/// Where a fault of a file is. All count from 1, but that item 0 is the whole of a certificate.
#[derive(Clone, Copy)]
pub(crate) enum Place {
    /// No place of its own.
    File,
    Record(u32),
    Column(u32),
    /// A record, and a column in it.
    Cell(u32, u32),
    Budget(u32),
    Item(u32),
}

/// What is told of a fault of a file.
#[derive(Clone, Copy)]
pub(crate) struct Told {
    pub(crate) name: &'static [u8],
    pub(crate) place: Place,
}
