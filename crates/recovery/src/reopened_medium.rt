//! All regions of a medium are made equal to the region that the root names.

ghost use Rattle.std.specs.Prelude.{◌*◌, IfOk};
ghost use Rattle.recovery.specs.Images.{IsReadable};
ghost use Rattle.recovery.specs.Recovery.{HasSize};
ghost use Rattle.recovery.specs.Reopened.{HasBothLines, HasReplicas, HoldsRegion, IsLineCopied, IsReopened, IsStoredFrom, region_lines, root_line};

use crate::region::read_words;
use cx_base::root_replica;
use cx_core::{HEAD_LINES, Image};
use pmem_model::Medium;
use std::alloc::{AllocError, Global};

/// Makes every region equal to the region that the root names, by stores, write-backs and a fence, and what it stores durable. A line
/// is stored to only where some word of it differs from the root's region, so no line of that region is: a crash at any moment leaves
/// that region as it was.
pub fn reopen(medium: &mut Medium, callers: u32, lines: u64, root: u64)
    requires { HasReplicas callers lines medium.old }
    ensures { IsReopened (region_lines lines) (2 * callers) (root_line callers lines root) medium.old medium.new }
{
    let region = HEAD_LINES + lines;
    let from = region * u64::from(root_replica(callers, root));
    for line in 0..region * (2 * u64::from(callers)) {
        copy_line(medium, from + line % region, line);
    }
    medium.fence();
}

/// The memory of an image, reopened: each region has the words of the one that the root names, and none is dirty. `Err` means out of memory.
pub fn reopen_image(alloc: Global, image: &Image) -> Result<Medium, AllocError>
    requires readable { IsReadable image.now.lines image.now }
    requires size { HasSize image.now }
    ensures { IfOk result (HoldsRegion image.now) }
{
    let words = read_words(alloc, image.pairs.as_slice(), 0, image.count as usize)?;
    let mut medium = Medium::of(alloc, words)?;
    reopen(&mut medium, image.callers, image.lines, image.root);
    Ok(medium)
}

/// Makes a line equal to another, and writes it back where it stored to it.
fn copy_line(medium: &mut Medium, source: u64, line: u64)
    requires { HasBothLines source line medium.old }
    ensures { IsLineCopied source line medium.old medium.new }
{
    if store_differing(medium, source, line) {
        medium.write_back(line);
    }
}

/// Stores to a line the words of another where they differ. Gives whether any did.
fn store_differing(medium: &mut Medium, source: u64, line: u64) -> bool
    requires { HasBothLines source line medium.old }
    ensures { IsStoredFrom source line 8 result medium.old medium.new }
{
    let mut differs = false;
    for i in 0..8 {
        let word = medium.load(8 * source + i);
        if medium.load(8 * line + i) != word {
            medium.store(8 * line + i, word);
            differs = true;
        }
    }
    differs
}
