ghost use Rattle.std.specs.Prelude.{◌≡◌, ℕ, ◌+◌, ◌-◌, ◌*◌, ◌/◌, ◌%◌, ◌^◌, ◌<◌, ◌≤◌, min, length, not, sum_by, slice_index};
ghost use Rattle.layout.specs.Lists.{rows};
ghost use Rattle.layout.specs.Bits.{bit_of, bit_at, bytes_for, zeros, zeros_of, zeros_in};

/// Whether bit i of the bytes is 1.
pub fn read_bit(bytes: &[u8], i: u64) -> bool
    requires { i / 8 < length bytes.now }
    ensures { result ≡ bit_at bytes.now i }
{
    (bytes[(i / 8) as usize] >> (i % 8) as u32) & 1 == 1
}

/// A run of bits in three parts, by how many: the bits before the first whole byte, the whole bytes, and the bits after them.
#[derive(Clone, Copy, Debug, PartialEq, Eq, Hash)]
pub struct WholeBytes {
    pub before: u64,
    pub bytes: u64,
    pub after: u64,
}

impl WholeBytes {
    /// The parts of n bits, from bit `first` on.
    pub fn among(first: u64, n: u64) -> WholeBytes
        ensures before { result.before ≡ min n ((8 - first % 8) % 8) }
        ensures bytes { result.bytes ≡ (n - result.before) / 8 }
        ensures all { result.before + 8 * result.bytes + result.after ≡ n }
    {
        let before = n.min((8 - first % 8) % 8);
        WholeBytes {
            before,
            bytes: (n - before) / 8,
            after: (n - before) % 8,
        }
    }
}

/// So many bits of bytes, from bit `first` on: a slice of bytes begins at a byte, and bits may begin within one.
// No `Debug`: it would print bytes of a recording.
#[derive(Clone, Copy)]
pub struct BitSlice<'a> {
    pub bytes: &'a [u8],
    pub first: u64,
    pub len: u64,
    ghost few: { first + len < 2 ^ 64 },
    ghost within: { bytes_for (first + len) ≤ length bytes.now },
}

impl<'a> BitSlice<'a> {
    ghost use Rattle.std.specs.Prelude.{take_while};
    ghost use Rattle.std.specs.Bool.{beq};
    ghost use mir.Val.{bool_byte};
    ghost use Rattle.std.specs.List.{range_with_len};
    ghost use Rattle.layout.specs.Bits.{byte_of};
    ghost use Rattle.layout.specs.BitSlices.{bit_in, bits_in, IsPart};
    ghost use Rattle.layout.specs.Lists.{cut};

    /// So many of them, from bit `from` of them on.
    pub fn part(&self, from: u64, len: u64) -> BitSlice<'a>
        requires { from + len ≤ self.now.len }
        ensures { IsPart self.now from len result }
    {
        BitSlice {
            bytes: self.bytes,
            first: self.first + from,
            len,
        }
    }

    /// Whether bit i of them is 1.
    pub fn is_set(&self, i: u64) -> bool
        requires { i < self.now.len }
        ensures { result ≡ bit_in self.now i }
    {
        read_bit(self.bytes, self.first + i)
    }

    /// Byte i of them, with the first of its bits the lowest. Where they end within it, the bits after the last are 0.
    pub fn byte(&self, i: u64) -> u8
        requires { 8 * i < self.now.len }
        ensures { result ≡ byte_of (cut (8 * i) 8 (bits_in self.now)) }
    {
        let place = self.first + 8 * i;
        let at = (place / 8) as usize;
        // Its bits lie in one byte, or in two.
        let two = [byte_at(self.bytes, at), byte_at(self.bytes, at + 1)];
        let bits = u16::from_le_bytes(two) >> (place % 8) as u32;
        let count = (self.len - 8 * i).min(8);
        (bits % (1 << count as u32)) as u8
    }

    /// How many of them, from the first on, are as `bit` says.
    pub fn count_leading(&self, bit: bool) -> u64
        ensures { result ≡ length (take_while (λ i. beq (bit_in self.now i) bit) (range_with_len 0 self.now.len)) }
    {
        let mut count = 0;
        while count < self.len && self.is_set(count) == bit {
            count += self.count_leading_in_byte(count, bit);
        }
        count
    }

    // The same from bit `from` of them on, which is so, in its byte.
    fn count_leading_in_byte(&self, from: u64, bit: bool) -> u64
        requires within { from < self.now.len }
        requires first { bit_in self.now from ≡ bit }
        ensures some { 0 < result }
        ensures most { from + result ≤ self.now.len }
        ensures alike { (i : ℕ) → i < result → bit_in self.now (from + i) ≡ bit }
        ensures byte { result ≤ 8 - (self.now.first + from) % 8 }
        ensures ends { from + result < self.now.len → result < 8 - (self.now.first + from) % 8
            → bit_in self.now (from + result) ≡ not bit }
    {
        let place = self.first + from;
        let rest = self.bytes[(place / 8) as usize] >> (place % 8) as u32;
        u64::from(count_trailing(rest, bit))
            .min(8 - place % 8)
            .min(self.len - from)
    }

    /// How many of them are 0.
    pub fn count_zeros(&self) -> u64
        ensures { result ≡ zeros (bits_in self.now) }
    {
        // Bytes that are filled go by words; only the bits before and after them go one by one.
        let parts = WholeBytes::among(self.first, self.len);
        let from = (self.first + parts.before) / 8;
        let to = from + parts.bytes;
        let before = self.part(0, parts.before);
        let whole = &self.bytes[from as usize..to as usize];
        let after = self.part(parts.before + 8 * parts.bytes, parts.after);
        before.count_zeros_by_bit() + count_zeros_in_bytes(whole) + after.count_zeros_by_bit()
    }

    // The same, bit by bit.
    fn count_zeros_by_bit(&self) -> u64
        requires { sum_by (λ i. bool_byte (not (bit_in self.now i))) (range_with_len 0 self.now.len) < 2 ^ 64 }
        ensures { result ≡ sum_by (λ i. bool_byte (not (bit_in self.now i))) (range_with_len 0 self.now.len) }
    {
        // Bits are summed: a `filter` branches on each, which takes three times as long where they come at random.
        (0..self.len).map(|i| u64::from(!self.is_set(i))).sum()
    }
}

// A byte, or 0 where there is none.
fn byte_at(bytes: &[u8], at: usize) -> u8
    ensures { result ≡ slice_index bytes.now at }
{
    bytes.get(at).copied().unwrap_or(0)
}

// How many bits of a byte, from the lowest on, are as `bit` says.
fn count_trailing(byte: u8, bit: bool) -> u32
    ensures alike { (i : ℕ) → i < result → bit_of byte i ≡ bit }
    ensures most { result ≤ 8 }
    ensures ends { result < 8 → bit_of byte result ≡ not bit }
{
    if bit {
        byte.trailing_ones()
    } else {
        byte.trailing_zeros()
    }
}

// How many bits of whole bytes are 0.
fn count_zeros_in_bytes(bytes: &[u8]) -> u64
    requires { 8 * length bytes.now < 2 ^ 64 }
    ensures count { result ≡ zeros_in bytes.now }
    ensures most { result ≤ 8 * length bytes.now }
{
    let (words, rest) = bytes.as_chunks::<8>();
    // In a word of its own the rest would be a copy, and a call of `memcpy` for a few bits.
    count_zeros_in_words(words) + count_zeros_byte_by_byte(rest)
}

// How many bits of a few bytes are 0.
fn count_zeros_byte_by_byte(bytes: &[u8]) -> u64
    requires { sum_by zeros_of bytes.now < 2 ^ 64 }
    ensures { result ≡ sum_by zeros_of bytes.now }
{
    bytes
        .iter()
        .map(|byte| u64::from(count_zeros_in_byte(*byte)))
        .sum()
}

fn count_zeros_in_byte(byte: u8) -> u32
    ensures { result ≡ zeros_of byte }
{
    byte.count_zeros()
}

fn count_zeros_in_words(words: &[[u8; 8]]) -> u64
    requires { sum_by zeros_in words.now < 2 ^ 64 }
    ensures { result ≡ sum_by zeros_in words.now }
{
    words
        .iter()
        .map(|word| u64::from(count_zeros_in_word(word)))
        .sum()
}

fn count_zeros_in_word(word: &[u8; 8]) -> u32
    ensures { result ≡ zeros_in word.now }
{
    u64::from_le_bytes(*word).count_zeros()
}

/// How many bytes so many bits fill.
pub fn bytes_for(bits: u64) -> u64
    ensures { result ≡ bytes_for bits }
{
    bits.div_ceil(8)
}
