//! Headers that the caller has.
ghost use Rattle.std.specs.Prelude.{◌≡◌, map, option_copied};
ghost use Rattle.frames.specs.Headers.{header_of};
ghost use Rattle.frames.specs.Makes.{supplied};

use crate::form::{Description, HeaderForm};

// No header is longer.
const MOST_BYTES: usize = 65_536;

/// Headers that the caller has: each stands at the ordinal of its message.
#[derive(Clone, Copy)]
pub struct Supplied<'a> {
    pub headers: &'a [&'a [u8]],
}

impl<'a> Supplied<'a> {
    // The one at an ordinal, where it is a header.
    fn header(&self, ordinal: u64) -> Option<&'a [u8]>
        ensures { option_copied result ≡ header_of (supplied (map (λ h. h.now) self.now.headers.now) ordinal) }
    {
        let header = *self.headers.get(ordinal as usize)?;
        if header.is_empty() || header.len() > MOST_BYTES {
            return None;
        }
        Some(header)
    }
}

impl HeaderForm for Supplied<'_> {
    ghost header = { λ s n m. supplied (map (λ h. h.now) s.headers.now) n };

    fn size(&self, ordinal: u64, _message: &Description) -> Option<usize> {
        let header = self.header(ordinal)?;
        Some(header.len())
    }

    fn write(&self, ordinal: u64, _message: &Description, memory: &mut [u8]) {
        let Some(header) = self.header(ordinal) else {
            return;
        };
        if header.len() <= memory.len() {
            memory[..header.len()].copy_from_slice(header);
        }
    }
}
