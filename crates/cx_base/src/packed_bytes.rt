//! Bytes packed into words, eight to a word.

ghost use Rattle.std.specs.Prelude.{◌≡◌, ◌*◌, ◌/◌, ◌%◌, ◌^◌, ◌<◌, ◌≤◌, ℕ, All, length, slice_index, drop};
ghost use Rattle.cx_base.specs.Packing.{byte_at, unpacked, packed_at, packed};

/// Puts byte i into word i / 8 at bits 8 * (i mod 8), and fills the rest with 0.
pub fn pack(bytes: &[u8], into: &mut [u64])
    requires { length bytes.now ≤ 8 * length into.old }
    ensures { into.new ≡ packed (length into.old) bytes.now }
{
    let used = bytes.len().div_ceil(8);
    pack_front(bytes, into, used);
    clear_from(into, used);
}

/// Packs bytes into that many of the first words.
fn pack_front(bytes: &[u8], into: &mut [u64], used: usize)
    requires { used ≤ length into.old }
    ensures { (k : ℕ) → k < used → slice_index into.new k ≡ packed_at bytes.now k }
{
    let mut rest = bytes;
    for k in 0..used {
        into[k] = first_word(rest);
        rest = behind_first_word(rest);
    }
}

/// Puts 0 into the words from a place on. Most of an operation or a reply is such words.
fn clear_from(into: &mut [u64], from: usize)
    ensures front { (k : ℕ) → k < from → slice_index into.new k ≡ slice_index into.old k }
    ensures rest { (k : ℕ) → from ≤ k → slice_index into.new k ≡ 0 }
{
    for k in from..into.len() {
        into[k] = 0;
    }
}

/// Gives the first bytes of some words back.
pub fn unpack(words: &[u64], into: &mut [u8])
    requires { length into.old ≤ 8 * length words.now }
    ensures { into.new ≡ unpacked (length into.old) words.now }
{
    for i in 0..into.len() {
        into[i] = byte_of(words[i / 8], i % 8);
    }
}

/// The byte at a place below 8 of a word.
fn byte_of(word: u64, place: usize) -> u8
    requires { place < 8 }
    ensures { result ≡ word / 2 ^ (8 * place) % 256 }
{
    ((word >> (8 * place)) % 256) as u8
}

/// The first eight bytes as a word, with zeros behind their end.
fn first_word(bytes: &[u8]) -> u64
    ensures { result ≡ packed_at bytes.now 0 }
{
    if bytes.len() >= 8 {
        whole_word(bytes)
    } else {
        short_word(bytes)
    }
}

/// The first eight bytes as a word, the first byte lowest.
fn whole_word(bytes: &[u8]) -> u64
    requires { 8 ≤ length bytes.now }
    ensures { result ≡ packed_at bytes.now 0 }
{
    u64::from_le_bytes([
        bytes[0], bytes[1], bytes[2], bytes[3], bytes[4], bytes[5], bytes[6], bytes[7],
    ])
}

/// The first eight bytes as a word, where fewer may stand: what lacks is 0.
fn short_word(bytes: &[u8]) -> u64
    ensures { result ≡ packed_at bytes.now 0 }
{
    u64::from_le_bytes([
        byte_or_zero(bytes, 0),
        byte_or_zero(bytes, 1),
        byte_or_zero(bytes, 2),
        byte_or_zero(bytes, 3),
        byte_or_zero(bytes, 4),
        byte_or_zero(bytes, 5),
        byte_or_zero(bytes, 6),
        byte_or_zero(bytes, 7),
    ])
}

/// The bytes behind the first eight.
fn behind_first_word(bytes: &[u8]) -> &[u8]
    ensures { result.now ≡ drop 8 bytes.now }
{
    &bytes[8usize.min(bytes.len())..]
}

/// The byte at a place, 0 behind the end.
fn byte_or_zero(bytes: &[u8], place: usize) -> u8
    ensures { result ≡ slice_index bytes.now place }
{
    bytes.get(place).copied().unwrap_or(0)
}

/// The laws of packing: packed bytes stand at their places, are words, and are given back.
pub fn packed_unpacks(bytes: &[u8], words: u64)
    requires { length bytes.now ≤ 8 * words }
    ensures places { (i : ℕ) → i < 8 * words → byte_at (packed words bytes.now) i ≡ slice_index bytes.now i }
    ensures fit { All (λ w. w < 2 ^ 64) (packed words bytes.now) }
    ensures back { unpacked (length bytes.now) (packed words bytes.now) ≡ bytes.now }
{}

/// The law that whole words are given back.
pub fn unpacked_packs(words: &[u64])
    ensures { packed (length words.now) (unpacked (8 * length words.now) words.now) ≡ words.now }
{}
