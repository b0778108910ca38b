//! What is printed of a body, and of what a sink was sent.
ghost use Rattle.std.specs.Prelude.{Some};
ghost use Rattle.pack.specs.Bodies.{hex_shown, body_shown, appended_shown, lengths_shown, pieces_shown};

use std::fmt;

/// The line of a body, in hex.
#[derive(Clone, Copy)]
pub(crate) struct BodyLine<'a>(pub &'a [u8]);

impl fmt::Display for BodyLine<'_> {
    ghost output = { λ line. Some (body_shown line.0.now) };

    fn fmt<W: fmt::Write>(&self, f: &mut fmt::Formatter<W>) -> fmt::Result {
        if self.0.is_empty() {
            return write!(f, "body -");
        }
        let bytes = HexText(self.0);
        write!(f, "body {bytes}")
    }
}

/// The line of the bytes that a sink was sent, in hex.
#[derive(Clone, Copy)]
pub(crate) struct AppendedLine<'a>(pub &'a [u8]);

impl fmt::Display for AppendedLine<'_> {
    ghost output = { λ line. Some (appended_shown line.0.now) };

    fn fmt<W: fmt::Write>(&self, f: &mut fmt::Formatter<W>) -> fmt::Result {
        if self.0.is_empty() {
            return write!(f, "appended -");
        }
        let bytes = HexText(self.0);
        write!(f, "appended {bytes}")
    }
}

/// The line of the lengths of pieces.
#[derive(Clone, Copy)]
pub(crate) struct PiecesLine<'a>(pub &'a [usize]);

impl fmt::Display for PiecesLine<'_> {
    ghost output = { λ line. Some (pieces_shown line.0.now) };

    fn fmt<W: fmt::Write>(&self, f: &mut fmt::Formatter<W>) -> fmt::Result {
        let lengths = LengthsText(self.0);
        write!(f, "pieces{lengths}")
    }
}

/// Lengths, each after a blank.
#[derive(Clone, Copy)]
struct LengthsText<'a>(&'a [usize]);

impl fmt::Display for LengthsText<'_> {
    ghost output = { λ text. Some (lengths_shown text.0.now) };

    fn fmt<W: fmt::Write>(&self, f: &mut fmt::Formatter<W>) -> fmt::Result {
        for len in self.0 {
            write!(f, " {len}")?;
        }
        Ok(())
    }
}

/// Bytes, each as two hex digits.
#[derive(Clone, Copy)]
struct HexText<'a>(&'a [u8]);

impl fmt::Display for HexText<'_> {
    ghost output = { λ text. Some (hex_shown text.0.now) };

    fn fmt<W: fmt::Write>(&self, f: &mut fmt::Formatter<W>) -> fmt::Result {
        for byte in self.0 {
            let high = *byte / 16;
            let low = *byte % 16;
            write!(f, "{high:x}{low:x}")?;
        }
        Ok(())
    }
}
