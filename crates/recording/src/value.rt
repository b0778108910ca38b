//! What a row has.
use crate::row::Row;
use crate::rows::Parts;
use crate::window::Window;

/// What a row has: its value where that is a bit or bytes, else the rows that it is made of.
// No `Debug`: it would print bytes of a recording.
#[derive(Clone, Copy)]
pub enum RowValue<'a> {
    /// No value.
    Null,
    /// The bit of a Boolean.
    Bit(bool),
    /// The bytes of a Fixed.
    Fixed(&'a [u8]),
    /// The byte string of a Bytes.
    Bytes(&'a [u8]),
    /// The elements of a List: rows of its child.
    List(Window<'a>),
    /// The parts of a Struct: the same row of each child.
    Struct(Parts<'a>),
    /// The entry that a Dictionary's key names: a row of its child.
    Entry(Row<'a>),
}
