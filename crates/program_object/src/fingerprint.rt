//! Fingerprints of programs.

ghost use Rattle.std.specs.Prelude.{◌≡◌};
ghost use Rattle.program_object.specs.Fingerprint as spec;

/// The fingerprint of a program: 64 bits that depend on its words, how many of them are instructions, and its fuel. Two different programs may have
/// the same one.
pub fn fingerprint(words: &[u64], instructions: u64, fuel: u64) -> u64
    ensures { result ≡ spec.fingerprint words.now instructions fuel }
{
    let mut so_far = mixed(mixed(14695981039346656037, instructions), fuel);
    for word in words {
        so_far = mixed(so_far, *word);
    }
    so_far
}

/// The fingerprint so far, `so_far`, with a word more: an exclusive or, a product by an odd number, and a shift that mixes high bits into low ones.
fn mixed(so_far: u64, word: u64) -> u64
    ensures { result ≡ spec.mixed so_far word }
{
    let product = (so_far ^ word).wrapping_mul(0x9E37_79B9_7F4A_7C15);
    product ^ (product >> 29)
}
