//! The first base of an object.

ghost use Rattle.std.specs.Prelude.{◌≡◌, ◌^◌, ◌≤◌, IfOk, IfNone, IfSome};
ghost use Rattle.cx_core.specs.Base.{LawfulBase, fresh_region};
ghost use Rattle.cx_core.specs.Region.{region_words};

use crate::entry::Base;
use crate::layout::{HEAD_LINES, LINE_WORDS};
use crate::step::format_part;
use cx_base::{Items, Object, VecMemory};
use std::alloc::{AllocError, Global};

impl Base {
    /// The base with place 0, no results, and the object's opening image, made over words that are 0. `Err` says that
    /// memory ran out; it also comes where a region of the object's lines has more words than a 64-bit number counts.
    pub fn fresh<O: Object>(alloc: Global, object: &O) -> Result<Base, AllocError>
        ensures place { IfOk result (λ base. base.place ≡ 0) }
        ensures words { IfOk result (λ base. base.words ≡ fresh_region (O.opening object.now)) }
        ensures lawful { IfOk result (LawfulBase (O.line_count object.now) (O.lawful object.now)) }
    {
        let count = region_len(object.lines()).ok_or(AllocError)?;
        let mut memory = VecMemory::of(vec![in alloc; 0; count]?, None);
        match format_part(object, &mut memory) {
            Ok(()) => {}
            Err(_) => unreachable!(),
        }
        Ok(Base {
            place: 0,
            words: Items::of(memory.into_words()),
        })
    }
}

/// The number of words of a region whose object has this number of lines, where a 64-bit number counts them.
fn region_len(lines: u64) -> Option<usize>
    ensures some { IfSome result (λ count. count ≡ region_words lines) }
    ensures none { IfNone result (2 ^ 64 ≤ region_words lines) }
{
    let lines = lines.checked_add(HEAD_LINES)?;
    Some(lines.checked_mul(LINE_WORDS)? as usize)
}
