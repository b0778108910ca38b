ghost use Rattle.std.specs.Prelude.{◌≡◌, Some};
ghost use Rattle.layout.specs.Faults.{refusal_number, fault_of, sentence_of, fault_shown};

use std::error::Error;
use std::fmt;

/// Why a call is refused. docs/RULES.md has the rule behind each.
#[derive(Clone, Copy, Debug, PartialEq, Eq, Hash)]
pub enum Refusal {
    Alignment = 1,
    NodeBytes = 2,
    TooLarge = 3,
    KindOrSize = 4,
    Nesting = 5,
    Place = 6,
    Offset = 7,
    Key = 8,
    Ended = 9,
    Column = 10,
    DictionaryAboveDictionary = 11,
    NoId = 12,
    Replacement = 13,
    Memory = 14,
    Rows = 15,
    Header = 16,
    Sink = 17,
    Ids = 18,
}

/// The number that the host is told.
impl From<Refusal> for u32 {
    ghost from_gives = { λ refusal number. number ≡ refusal_number refusal };

    fn from(refusal: Refusal) -> u32 {
        refusal as u32
    }
}

/// The refusal in words.
// `thiserror` would write this, and what it prints would be in no contract.
impl fmt::Display for Refusal {
    ghost output = { λ refusal. Some (sentence_of refusal) };

    fn fmt<W: fmt::Write>(&self, f: &mut fmt::Formatter<W>) -> fmt::Result {
        f.write_str(match self {
            Refusal::Alignment => "the alignment is not 8, 16, 32 or 64",
            Refusal::NodeBytes => "the node bytes are no multiple of 80",
            Refusal::TooLarge => "there are over 65,535 nodes or 4,294,967,295 bytes",
            Refusal::KindOrSize =>
                "the kind or the size is outside the table, or from + rows is above 2,147,483,647",
            Refusal::Nesting => "the span, the children or the depth is not as the kind asks",
            Refusal::Place => "a place plus what is needed there is past the bytes",
            Refusal::Offset =>
                "an offset is negative, falls, or passes the extent or the child's rows",
            Refusal::Key => "a valid row's key is negative or not below the child's rows",
            Refusal::Ended => "the stream has ended",
            Refusal::Column => "a column is no node, or has other rows",
            Refusal::DictionaryAboveDictionary => "a dictionary stands above a dictionary",
            Refusal::NoId => "no id is left",
            Refusal::Replacement => "a dictionary would be replaced",
            Refusal::Memory => "a lent memory is too short",
            Refusal::Rows => "the rows are above 2,147,483,647",
            Refusal::Header => "the header form has no header",
            Refusal::Sink => "the sink has too little room",
            Refusal::Ids => "all 64 ids are given out",
        })
    }
}

/// A refusal and where it arose: column and node count from 0, and are 0 where none is concerned.
// No `Option`s: a host in C is told 0.
#[derive(Clone, Copy, Debug, PartialEq, Eq, Hash)]
pub struct Fault {
    pub refusal: Refusal,
    pub column: u64,
    pub node: u64,
}

impl Fault {
    pub fn new(refusal: Refusal, column: u64, node: u64) -> Fault
        ensures { result ≡ fault_of refusal column node }
    {
        Fault {
            refusal,
            column,
            node,
        }
    }

    /// The number of its refusal.
    pub fn number(&self) -> u32
        ensures { result ≡ refusal_number self.now.refusal }
    {
        u32::from(self.refusal)
    }
}

/// A refusal that concerns no column and no node.
impl From<Refusal> for Fault {
    ghost from_gives = { λ refusal fault. fault ≡ fault_of refusal 0 0 };

    fn from(refusal: Refusal) -> Fault {
        Fault::new(refusal, 0, 0)
    }
}

/// Its numbers; the words are those of its refusal.
// `thiserror` would write it with no contract.
impl fmt::Display for Fault {
    ghost output = { λ fault. Some (fault_shown fault) };

    fn fmt<W: fmt::Write>(&self, f: &mut fmt::Formatter<W>) -> fmt::Result {
        let number = self.number();
        let column = self.column;
        let node = self.node;
        write!(f, "fault {number} column {column} node {node}")
    }
}

impl Error for Refusal {}

impl Error for Fault {}
