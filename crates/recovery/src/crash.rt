//! What a crash leaves of a closed table.

ghost use Rattle.std.specs.Prelude.{◌≡◌, ◌^◌, ◌<◌, ◌≤◌, IfOk, length};
ghost use Rattle.pmem_model.specs.Medium.{any_value};
ghost use Rattle.pmem_model.specs.declared.medium.Mark.TheVariants.{Dirty};
ghost use Rattle.recovery.specs.Crashes.{IsLeftOf, AreRemainsWhole, left_root, left_word};
ghost use Rattle.recovery.specs.Images.{image_size};

use crate::region::image_len;
use cx_base::Items;
use cx_core::Image;
use cx_table::Remains;
use std::alloc::{AllocError, Global};

/// The image that a crash leaves of a closed table, one for each choice. The root is one of the codes published from the
/// durable one on, the one at the choice modulo their number. A word that is not dirty has its durable value. A dirty one has its
/// durable value by choice 0, its volatile value by choice 1, and by each other choice some number of its own. The image takes
/// memory for the words that are not 0. `Err` means out of memory.
pub fn crash_image(alloc: Global, remains: &Remains, choice: u64) -> Result<Image, AllocError>
    requires { AreRemainsWhole remains.now }
    ensures { IfOk result (IsLeftOf remains.now choice) }
{
    let mut pairs = Vec::new(alloc);
    for at in 0..remains.durable.len() {
        let word = word_left(remains, choice, at);
        if word != 0 {
            pairs.push((at as u64, word))?;
        }
    }
    Ok(Image {
        callers: remains.callers,
        lines: remains.lines,
        count: image_len(remains.callers, remains.lines),
        root: root_left(remains, choice),
        pairs: Items::of(pairs),
    })
}

/// The root code that a crash leaves by `choice`: the one at `choice` modulo their number, of those published from the durable one on.
fn root_left(remains: &Remains, choice: u64) -> u64
    requires { 1 ≤ length remains.now.published.items }
    ensures { result ≡ left_root remains.now choice }
{
    let at = choice % remains.published.len() as u64;
    remains.published[at as usize]
}

/// What a crash leaves of the word at address `at`: its durable value, and of a dirty word what `lost_word` gives.
fn word_left(remains: &Remains, choice: u64, at: usize) -> u64
    requires whole { AreRemainsWhole remains.now }
    requires at { at < image_size remains.now.callers remains.now.lines }
    ensures { result ≡ left_word remains.now choice at }
{
    let durable = remains.durable[at];
    if !remains.dirty[at] {
        return durable;
    }
    lost_word(choice, at as u64, remains.volatile[at], durable)
}

/// What a crash leaves of a dirty word at address `at`: by choice 0 its durable value, by choice 1 its volatile one, by another a number of its own.
fn lost_word(choice: u64, at: u64, volatile: u64, durable: u64) -> u64
    requires { at < 2 ^ 63 }
    ensures { result ≡ any_value choice at (record { value = volatile; durable = durable; mark = Dirty }) }
{
    match choice {
        0 => durable,
        1 => volatile,
        _ => choice.wrapping_mul(at + 1),
    }
}
