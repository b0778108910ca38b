//! What is printed of a row.
use layout::{Width, read};
use recording::{Row, RowValue};
use std::{fmt, str};

/// A row's value as a person reads it.
#[derive(Clone, Copy)]
pub(crate) struct RowText<'a>(pub Row<'a>);

impl fmt::Display for RowText<'_> {
    fn fmt<W: fmt::Write>(&self, f: &mut fmt::Formatter<W>) -> fmt::Result {
        write_row(self.0, f)
    }
}

// Writes the value of a row; lists in brackets, structs in braces, and the entry that a key names in its place.
fn write_row<W: fmt::Write>(row: Row, f: &mut fmt::Formatter<W>) -> fmt::Result {
    match row.value() {
        RowValue::Null => f.write_str("null"),
        RowValue::Bit(bit) => write!(f, "{bit}"),
        RowValue::Fixed(bytes) => write!(f, "{}", FixedText(bytes)),
        RowValue::Bytes(bytes) => write!(f, "{}", BytesText(bytes)),
        // The rows of a window and the parts of a Struct come from two iterators, so there are two loops.
        RowValue::List(window) => {
            f.write_str("[")?;
            let mut more = false;
            for element in window.iter() {
                write_separator(more, f)?;
                write_row(element, f)?;
                more = true;
            }
            f.write_str("]")
        }
        RowValue::Struct(parts) => {
            f.write_str("{")?;
            let mut more = false;
            for part in parts {
                write_separator(more, f)?;
                write_row(part, f)?;
                more = true;
            }
            f.write_str("}")
        }
        RowValue::Entry(entry) => write_row(entry, f),
    }
}

// Writes what stands between two items.
fn write_separator<W: fmt::Write>(more: bool, f: &mut fmt::Formatter<W>) -> fmt::Result {
    if more { f.write_str(", ") } else { Ok(()) }
}

/// A Fixed: a number in decimal where it has the size of one, else as bytes.
#[derive(Clone, Copy)]
struct FixedText<'a>(&'a [u8]);

impl fmt::Display for FixedText<'_> {
    fn fmt<W: fmt::Write>(&self, f: &mut fmt::Formatter<W>) -> fmt::Result {
        match Width::try_from(self.0.len() as u64) {
            Ok(width) => write!(f, "{}", read::<u64>(self.0, width)),
            Err(_) => write!(f, "{}", BytesText(self.0)),
        }
    }
}

/// Bytes: in quotes where they are plain ASCII, else in hex.
#[derive(Clone, Copy)]
struct BytesText<'a>(&'a [u8]);

impl fmt::Display for BytesText<'_> {
    fn fmt<W: fmt::Write>(&self, f: &mut fmt::Formatter<W>) -> fmt::Result {
        if let Ok(text) = str::from_utf8(self.0)
            && self.0.iter().all(|byte| is_plain(*byte))
        {
            return write!(f, "\"{text}\"");
        }
        for byte in self.0 {
            write!(f, "{byte:02x}")?;
        }
        Ok(())
    }
}

// Whether a byte stands for itself between quotes.
fn is_plain(byte: u8) -> bool {
    matches!(byte, b' '..=b'~') && byte != b'"' && byte != b'\\'
}
