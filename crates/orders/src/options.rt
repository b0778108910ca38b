//! The options of a case.
use recording::DictionaryHandling;

/// The options of a whole case: what its lines set last, wherever they stand in it.
#[derive(Clone, Copy, Debug, PartialEq, Eq, Hash)]
pub struct Options {
    /// Any number: which ones are alignments is not for an order to say.
    pub alignment: u64,
    pub dictionary_handling: DictionaryHandling,
    pub error_on_replacement: bool,
}

/// Alignment 64, Resend, and no error on replacement.
impl Default for Options {
    ghost use Rattle.std.specs.Prelude.{◌≡◌};
    ghost use Rattle.orders.specs.Options.{default_options};

    ghost is_default = { λ o. o ≡ default_options };

    // A derived one would make the alignment 0.
    fn default() -> Options {
        Options {
            alignment: 64,
            dictionary_handling: DictionaryHandling::Resend,
            error_on_replacement: false,
        }
    }
}
