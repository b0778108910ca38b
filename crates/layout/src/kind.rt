ghost use Rattle.std.specs.Prelude.{◌≡◌, ℕ, ◌≤◌, true};
ghost use Rattle.std.specs.Option.{ok_or};
ghost use Rattle.layout.specs.Kinds.{kind_number, kind_of, size_fits, offset_width, children_fit, slot_bytes, has_data, has_bitmap};
ghost use Rattle.layout.specs.declared.fault.Refusal.TheVariants.{KindOrSize};

use crate::bit::bytes_for;
use crate::fault::Refusal;
use crate::number::Width;

/// What a node holds: the nine kinds of the table.
#[derive(Clone, Copy, Debug, PartialEq, Eq, Hash)]
pub enum Kind {
    Null = 0,
    Boolean = 1,
    Fixed = 2,
    Bytes32 = 3,
    Bytes64 = 4,
    List32 = 5,
    List64 = 6,
    Struct = 7,
    Dictionary = 8,
}

/// The kind that a node's number names; no kind has a number above 8.
impl TryFrom<u64> for Kind {
    type Error = Refusal;

    ghost try_from_gives = { λ number kind. kind ≡ ok_or (kind_of number) KindOrSize };

    // No derive makes an enum of a number.
    fn try_from(number: u64) -> Result<Kind, Refusal> {
        match number {
            0 => Ok(Kind::Null),
            1 => Ok(Kind::Boolean),
            2 => Ok(Kind::Fixed),
            3 => Ok(Kind::Bytes32),
            4 => Ok(Kind::Bytes64),
            5 => Ok(Kind::List32),
            6 => Ok(Kind::List64),
            7 => Ok(Kind::Struct),
            8 => Ok(Kind::Dictionary),
            _ => Err(Refusal::KindOrSize),
        }
    }
}

/// The number that names it.
impl From<Kind> for u64 {
    ghost from_gives = { λ kind number. number ≡ kind_number kind };

    fn from(kind: Kind) -> u64 {
        kind as u64
    }
}

impl Kind {
    /// How wide its offsets are, if it has any.
    pub fn offset_width(self) -> Option<Width>
        ensures { result ≡ offset_width self }
    {
        match self {
            Kind::Bytes32 | Kind::List32 => Some(Width::Four),
            Kind::Bytes64 | Kind::List64 => Some(Width::Eight),
            Kind::Null | Kind::Boolean | Kind::Fixed | Kind::Struct | Kind::Dictionary => None,
        }
    }

    /// Whether it may have this many children.
    pub fn may_have(self, children: u64) -> bool
        ensures { result ≡ children_fit self children }
    {
        match self {
            Kind::List32 | Kind::List64 | Kind::Dictionary => children == 1,
            Kind::Struct => true,
            Kind::Null | Kind::Boolean | Kind::Fixed | Kind::Bytes32 | Kind::Bytes64 => {
                children == 0
            }
        }
    }

    /// Whether it may have this size; only Fixed and Dictionary use theirs.
    pub fn may_measure(self, size: u64) -> bool
        ensures { result ≡ size_fits self size }
    {
        match self {
            Kind::Fixed => (1..=256).contains(&size),
            Kind::Dictionary => Width::try_from(size).is_ok(),
            _ => true,
        }
    }

    /// How many bytes so many slots fill, if it has slots: of offsets there is one more.
    pub fn slot_bytes(self, size: u64, slots: u64) -> Option<u64>
        requires { (slots ≤ 2147483647) × (size_fits self size ≡ true) }
        ensures { result ≡ slot_bytes self size slots }
    {
        match self {
            Kind::Null | Kind::Struct => None,
            Kind::Boolean => Some(bytes_for(slots)),
            Kind::Fixed | Kind::Dictionary => Some(slots * size),
            // By their numbers, as the table of kinds has them; `offset_width` would be asked outside the table.
            Kind::Bytes32 | Kind::List32 => Some((slots + 1) * 4),
            Kind::Bytes64 | Kind::List64 => Some((slots + 1) * 8),
        }
    }

    /// Whether it has data beside its offsets.
    pub fn has_data(self) -> bool
        ensures { result ≡ has_data self }
    {
        matches!(self, Kind::Bytes32 | Kind::Bytes64)
    }

    /// Whether it may have a bitmap.
    pub fn has_bitmap(self) -> bool
        ensures { result ≡ has_bitmap self }
    {
        self != Kind::Null
    }
}
