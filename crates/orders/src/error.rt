ghost use Rattle.std.specs.Prelude.{◌≡◌};
ghost use Rattle.orders.specs.Words.{why_words, order_error_words};
ghost use Rattle.orders.specs.declared.error.Why.TheVariants.{File, Memory, NotText};

use std::alloc::{AllocError, AllocFailed};
use std::error::Error;
use std::str::Utf8Error;
use std::{fmt, io};

/// Why a line of an order cannot be read.
// An `io::Error` can be neither compared nor hashed.
#[derive(Clone, Copy, Debug)]
pub enum Why {
    UnknownItem,
    MissingWord,
    ExtraWord,
    NotText,
    NotNumber,
    NumberTooLarge,
    NotHex,
    UnknownWord,
    File(io::Error),
    Memory,
}

// `thiserror` would write this and the next, and what they print would be in no contract.
impl fmt::Display for Why {
    ghost output = { why_words };

    fn fmt<W: fmt::Write>(&self, f: &mut fmt::Formatter<W>) -> fmt::Result {
        match self {
            Why::UnknownItem => f.write_str("no item has this name"),
            Why::MissingWord => f.write_str("the line lacks a word"),
            Why::ExtraWord => f.write_str("the line has a word too many"),
            Why::NotText => f.write_str("a word is not UTF-8"),
            Why::NotNumber => f.write_str("a number is asked for, in decimal digits"),
            Why::NumberTooLarge => f.write_str("a number is above 18446744073709551615"),
            Why::NotHex => f.write_str("hex is asked for, in pairs of digits, or -"),
            Why::UnknownWord => f.write_str("the word is none of those that may stand here"),
            Why::File(error) => write!(f, "{error}"),
            Why::Memory => f.write_str("out of memory"),
        }
    }
}

impl Error for Why {}

// By hand: a macro's `From` would have no contract, and what a line is refused with is in one.
impl From<AllocError> for Why {
    ghost from_gives = { λ _ r. r ≡ Memory };

    fn from(_error: AllocError) -> Why {
        Why::Memory
    }
}

impl<T: Drop> From<AllocFailed<T>> for Why {
    ghost from_gives = { λ _ r. r ≡ Memory };

    fn from(_error: AllocFailed<T>) -> Why {
        Why::Memory
    }
}

impl From<io::Error> for Why {
    ghost from_gives = { λ error r. r ≡ File error };

    fn from(error: io::Error) -> Why {
        Why::File(error)
    }
}

impl From<Utf8Error> for Why {
    ghost from_gives = { λ _ r. r ≡ NotText };

    fn from(_error: Utf8Error) -> Why {
        Why::NotText
    }
}

/// The first line that cannot be read, counted from 1, and why.
#[derive(Clone, Copy, Debug)]
pub struct OrderError {
    pub line: u64,
    pub why: Why,
}

impl fmt::Display for OrderError {
    ghost output = { order_error_words };

    fn fmt<W: fmt::Write>(&self, f: &mut fmt::Formatter<W>) -> fmt::Result {
        write!(f, "line {}: {}", self.line, self.why)
    }
}

impl Error for OrderError {}
