ghost use Rattle.std.specs.Prelude.{◌≡◌};

use crate::alignment::Alignment;
use layout::Fault;

/// How a dictionary that grew is sent.
#[derive(Clone, Copy, Debug, Default, PartialEq, Eq, Hash)]
pub enum DictionaryHandling {
    /// A dictionary that changed is sent whole.
    #[default]
    Resend,
    /// Of a dictionary that only grew, the new rows are sent.
    Delta,
}

/// How a stream writes: its alignment, and what it does with dictionaries.
#[derive(Clone, Copy, Debug, PartialEq, Eq, Hash)]
pub struct IpcWriteOptions {
    alignment: Alignment,
    dictionary_handling: DictionaryHandling,
    error_on_replacement: bool,
}

/// Alignment 64, Resend, and no error on replacement.
impl Default for IpcWriteOptions {
    ghost use Rattle.std.specs.Prelude.{false};
    ghost use Rattle.recording.specs.declared.options.DictionaryHandling.TheVariants.{Resend};
    ghost use Rattle.recording.specs.Options.{Sets};

    ghost is_default = { λ o. Sets o 64 Resend false };

    // A derived one would say that each field has its default, and not which.
    fn default() -> IpcWriteOptions {
        IpcWriteOptions {
            alignment: Alignment::SixtyFour,
            dictionary_handling: DictionaryHandling::Resend,
            error_on_replacement: false,
        }
    }
}

impl IpcWriteOptions {
    ghost use Rattle.std.specs.Prelude.{true, false, IfOk, IfErr};
    ghost use Rattle.layout.specs.declared.fault.Refusal.TheVariants as refused;
    ghost use Rattle.layout.specs.Faults.{fault_of};
    ghost use Rattle.recording.specs.declared.options.DictionaryHandling.TheVariants.{Resend};
    ghost use Rattle.recording.specs.Alignments.{is_alignment, alignment_number};
    ghost use Rattle.recording.specs.Options.{Sets};

    /// The default with an alignment; one that is not 8, 16, 32 or 64 is refused.
    pub fn try_new(alignment: usize) -> Result<IpcWriteOptions, Fault>
        ensures set { IfOk result (λ o.
            (is_alignment alignment ≡ true) × Sets o alignment Resend false) }
        ensures refused { IfErr result (λ f.
            (is_alignment alignment ≡ false) × (f ≡ fault_of refused.Alignment 0 0)) }
    {
        Ok(IpcWriteOptions {
            alignment: Alignment::try_from(alignment)?,
            ..IpcWriteOptions::default()
        })
    }

    /// These options with another handling of dictionaries.
    pub fn with_dictionary_handling(self, handling: DictionaryHandling) -> IpcWriteOptions
        ensures { Sets result (alignment_number self.alignment) handling self.error_on_replacement }
    {
        IpcWriteOptions {
            dictionary_handling: handling,
            ..self
        }
    }

    /// These options with or without an error on replacement.
    pub fn with_error_on_replacement(self, refuse: bool) -> IpcWriteOptions
        ensures { Sets result (alignment_number self.alignment) self.dictionary_handling refuse }
    {
        IpcWriteOptions {
            error_on_replacement: refuse,
            ..self
        }
    }

    /// 8, 16, 32 or 64.
    pub fn alignment(&self) -> usize
        ensures value { result ≡ alignment_number self.now.alignment }
        ensures aligned { is_alignment result ≡ true }
    {
        usize::from(self.alignment)
    }

    /// How a dictionary that grew is sent.
    pub fn dictionary_handling(&self) -> DictionaryHandling
        ensures { result ≡ self.now.dictionary_handling }
    {
        self.dictionary_handling
    }

    /// Whether a dictionary that would be replaced is refused.
    pub fn error_on_replacement(&self) -> bool
        ensures { result ≡ self.now.error_on_replacement }
    {
        self.error_on_replacement
    }
}
