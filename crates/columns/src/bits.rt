//! Bits that are sent.
ghost use Rattle.std.specs.Prelude.{◌≡◌, ℕ, ◌+◌, ◌/◌, ◌^◌, ◌%◌, ◌<◌, ◌≤◌, length, take, slice_index};
ghost use Rattle.layout.specs.Bits.{bytes_for};
ghost use Rattle.layout.specs.Lists.{rows};
ghost use Rattle.layout.specs.Messages.{bit_bytes};
ghost use Rattle.laws.specs.Places.{Below};
ghost use Rattle.columns.specs.Bits.{bits_of, two_bytes};

use layout::{BitSlice, Width, read, write};

/// Writes bits: unchanged if they begin a byte, else shifted down, with spare bits 0.
pub(crate) fn write_bits(bits: &BitSlice, out: &mut [u8])
    requires { length out.now ≡ bytes_for bits.now.len }
    ensures { out.new ≡ bit_bytes (bits_of bits.now) }
{
    let start = (bits.first / 8) as usize;
    let shift = (bits.first % 8) as u32;
    if shift == 0 {
        copy_bytes(&bits.bytes[start..start + out.len()], out);
        return;
    }
    let whole = (bits.len / 8) as usize;
    shift_bytes(
        &bits.bytes[start..start + whole + 1],
        shift,
        &mut out[..whole],
    );
    if whole < out.len() {
        out[whole] = bits.byte(whole as u64);
    }
}

// Writes bytes as they are, and tells that they are bytes.
fn copy_bytes(bytes: &[u8], out: &mut [u8])
    requires { length bytes.now ≡ length out.now }
    ensures value { out.new ≡ bytes.now }
    ensures bytes { Below 256 bytes.now }
{
    out.copy_from_slice(bytes);
}

// Writes bytes that begin so many bits within a byte: words, and byte by byte what is left.
fn shift_bytes(bytes: &[u8], shift: u32, out: &mut [u8])
    requires long { length bytes.now ≡ length out.now + 1 }
    requires some { 0 < shift }
    requires few { shift < 8 }
    ensures bytes { (i : ℕ) → slice_index bytes.now i < 256 }
    ensures value { out.new ≡ rows (length out.old) (λ i. two_bytes bytes.now i / 2 ^ shift % 256) }
{
    for i in shift_words(bytes, shift, out)..out.len() {
        out[i] = ((u16::from_le_bytes([bytes[i], bytes[i + 1]]) >> shift) % 256) as u8;
    }
}

// Writes those of whole words, as far as each has a word after it; answers how many bytes they are.
fn shift_words(bytes: &[u8], shift: u32, out: &mut [u8]) -> usize
    requires long { length bytes.now ≡ length out.now + 1 }
    requires some { 0 < shift }
    requires few { shift < 8 }
    ensures within { result ≤ length out.old }
    ensures value { take result out.new ≡ rows result (λ i. two_bytes bytes.now i / 2 ^ shift % 256) }
{
    let words = out.len().saturating_sub(7) / 8;
    for i in 0..words {
        let at = i * 8;
        let low: u64 = read(&bytes[at..], Width::Eight);
        let high: u64 = read(&bytes[at + 8..], Width::Eight);
        let word = (low >> shift).wrapping_add(high << (64 - shift));
        write(&mut out[at..], Width::Eight, word);
    }
    words * 8
}
