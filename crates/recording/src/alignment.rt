ghost use Rattle.std.specs.Prelude.{◌≡◌, false, MatchResult};
ghost use Rattle.layout.specs.declared.fault.Refusal.TheVariants as refused;
ghost use Rattle.recording.specs.Alignments.{alignment_number, is_alignment};

use layout::Refusal;

/// At which multiples of bytes a stream writes.
#[derive(Clone, Copy, Debug, PartialEq, Eq, Hash)]
pub enum Alignment {
    Eight = 8,
    Sixteen = 16,
    ThirtyTwo = 32,
    SixtyFour = 64,
}

/// The alignment of a number; one that is not 8, 16, 32 or 64 is refused.
impl TryFrom<usize> for Alignment {
    type Error = Refusal;

    ghost try_from_gives = { λ number result. MatchResult result
        (λ alignment. alignment_number alignment ≡ number)
        (λ refusal. (is_alignment number ≡ false) × (refusal ≡ refused.Alignment)) };

    // No derive makes an enum of a number.
    fn try_from(number: usize) -> Result<Alignment, Refusal> {
        match number {
            8 => Ok(Alignment::Eight),
            16 => Ok(Alignment::Sixteen),
            32 => Ok(Alignment::ThirtyTwo),
            64 => Ok(Alignment::SixtyFour),
            _ => Err(Refusal::Alignment),
        }
    }
}

/// Its number.
impl From<Alignment> for usize {
    ghost from_gives = { λ alignment number. number ≡ alignment_number alignment };

    fn from(alignment: Alignment) -> usize {
        alignment as usize
    }
}
