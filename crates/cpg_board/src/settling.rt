//! How a record is not settled.

use cpg_record::Record;

/// Why a record was not settled.
#[derive(Debug, Clone, Copy)]
pub enum Settled<'a> {
    /// Memory was asked for and not given.
    Memory,
    /// The seat knows every place of the board.
    BoardFull,
    /// That other record stands at the place.
    Differs(&'a Record),
}
