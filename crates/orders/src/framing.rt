//! How a case has its batches framed.

/// Which header form a case has.
#[derive(Clone, Copy, Debug, PartialEq, Eq, Hash)]
pub enum FormName {
    /// The one that writes the numbers of a message.
    Numbers,
    /// The one that has the headers which the case supplies.
    Supplied,
}

/// What a sink takes beyond what it holds at first.
#[derive(Clone, Copy, Debug, PartialEq, Eq, Hash)]
pub enum SinkSizes {
    /// So many bytes more.
    Bytes { bytes: u64 },
    /// So many bytes and pieces more, where pieces are kept.
    Buffers { bytes: u64, pieces: u64 },
}

/// 64 MiB more, and no pieces are kept.
impl Default for SinkSizes {
    ghost use Rattle.std.specs.Prelude.{◌≡◌};
    ghost use Rattle.orders.specs.Framing.{default_sink};

    ghost is_default = { λ s. s ≡ default_sink };

    fn default() -> SinkSizes {
        SinkSizes::Bytes { bytes: 67_108_864 }
    }
}
