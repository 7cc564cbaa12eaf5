//! What a crash leaves is written into words.

ghost use Rattle.std.specs.Prelude.{◌≡◌, ◌+◌, ◌<◌, ◌≤◌, ◌^◌, length};
ghost use Rattle.pmem_model.specs.Medium.{any_value};
ghost use Rattle.pmem_model.specs.declared.medium.Mark.TheVariants.{Dirty};
ghost use Rattle.recovery.specs.Crashes.{AreRemainsWhole, left_root, left_word};
ghost use Rattle.recovery.specs.Images.{image_size};
ghost use Rattle.c_images.specs.Words.{AreLeftWords, AreRemainsWritten};

use crate::head::{HEAD, NAME, REPLICAS};
use cx_core::{HEAD_LINES, LINE_WORDS};
use cx_table::Remains;

/// How many words an image of what a closed service leaves has: the words of all replicas, two for each caller, and the head's.
pub fn image_words(remains: &Remains) -> u64
    requires { AreRemainsWhole remains.now }
    ensures { result ≡ image_size remains.now.callers remains.now.lines + 8 }
{
    LINE_WORDS * (HEAD_LINES + remains.lines) * (2 * u64::from(remains.callers)) + HEAD as u64
}

/// Writes what a crash leaves of a closed service whose object is of this kind, by choice. Choice 0 leaves of each word what was
/// durable, choice 1 what was stored last, and each other choice of each dirty word a number computed from the choice and the word's address; the
/// root is one of the codes published from the durable one on.
pub fn write_image(remains: &Remains, kind: u64, choice: u64, words: &mut [u64])
    requires whole { AreRemainsWhole remains.now }
    requires long { length words.old ≡ image_size remains.now.callers remains.now.lines + 8 }
    ensures { AreRemainsWritten kind remains.now choice words.new }
{
    write_words(remains, choice, words);
    words[0] = NAME;
    words[1] = REPLICAS;
    words[2] = kind;
    words[3] = u64::from(remains.callers);
    words[4] = remains.lines;
    words[5] = root_left(remains, choice);
    words[6] = 0;
    words[7] = 0;
}

/// Writes after the head what the crash of this `choice` leaves of the words of all replicas.
fn write_words(remains: &Remains, choice: u64, words: &mut [u64])
    requires whole { AreRemainsWhole remains.now }
    requires long { length words.old ≡ image_size remains.now.callers remains.now.lines + 8 }
    ensures { AreLeftWords remains.now choice (image_size remains.now.callers remains.now.lines) (image_size remains.now.callers remains.now.lines) words.new }
{
    for at in 0..words.len() - HEAD {
        words[at + HEAD] = word_left(remains, choice, at);
    }
}

/// The root that the crash of this `choice` leaves: one of the codes published from the durable one on, picked by the choice.
fn root_left(remains: &Remains, choice: u64) -> u64
    requires { 1 ≤ length remains.now.published.items }
    ensures { result ≡ left_root remains.now choice }
{
    let at = choice % remains.published.len() as u64;
    remains.published[at as usize]
}

/// What the crash of this `choice` leaves of the word `at`: what was durable where the word is not dirty, and else a value that the choice picks.
fn word_left(remains: &Remains, choice: u64, at: usize) -> u64
    requires whole { AreRemainsWhole remains.now }
    requires at { at < image_size remains.now.callers remains.now.lines }
    ensures { result ≡ left_word remains.now choice at }
{
    let durable = remains.durable[at];
    if !remains.dirty[at] {
        return durable;
    }
    lost_word(choice, at as u64, remains.volatile[at], durable)
}

/// What the crash of this `choice` leaves of a dirty word `at`: choice 0 leaves what was durable, 1 what was stored last, `volatile`, and each other
/// choice the product of the choice and `at + 1`, modulo 2^64.
fn lost_word(choice: u64, at: u64, volatile: u64, durable: u64) -> u64
    requires { at < 2 ^ 63 }
    ensures { result ≡ any_value choice at (record { value = volatile; durable = durable; mark = Dirty }) }
{
    match choice {
        0 => durable,
        1 => volatile,
        _ => choice.wrapping_mul(at + 1),
    }
}
