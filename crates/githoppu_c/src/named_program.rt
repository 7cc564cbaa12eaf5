//! A program's object of which only the fingerprint is known.

ghost use Rattle.std.specs.Prelude.{◌≡◌, ◌*◌, ◌^◌, ◌<◌, ◌≤◌, true, refl};
ghost use Rattle.cx_base.specs.OldFormat.{no_old_format, takes_over_nothing};
ghost use Rattle.program_object.specs.Meaning.{IsProgramImage, opening};
ghost use Rattle.program_object.specs.Laws.{program_opens, program_shape};
ghost use Rattle.githoppu_c.specs.Named as laws;

use cx_base::{Halt, Memory, OP_WORDS, Object, OpWords};
use std::alloc::{AllocError, Global};

/// A program's object of which only the fingerprint is known, as an image tells it: enough to tell whether the image is one of such a program, and what became
/// of a session's last operation. It does no operation: each is answered by zeros, and changes nothing.
#[derive(Drop)]
pub struct NamedProgram {
    // how many lines the object has
    lines: u64,
    // the fingerprint of the program, which is the first word of the object's images
    version: u64,
    ghost some: { 1 ≤ lines },
    ghost few: { lines ≤ 2 ^ 26 },
    ghost small: { version < 2 ^ 64 },
}

impl NamedProgram {
    /// The object, in `lines` lines, of a program of which only the fingerprint `version` is known.
    pub fn of(lines: u64, version: u64) -> NamedProgram
        requires some { 1 ≤ lines }
        requires few { lines ≤ 2 ^ 26 }
        ensures { (result.lines ≡ lines) × (result.version ≡ version) }
    {
        NamedProgram { lines, version }
    }
}

impl Object for NamedProgram {
    ghost line_count = { λ o. o.lines };

    ghost version_number = { λ o. o.version };

    // an image is lawful where it may be one of a program with this fingerprint
    ghost lawful = { λ o. IsProgramImage o.lines o.version };

    ghost opening = { λ o. opening o.lines o.version };

    // each operation leaves the image as it is, and is answered by 144 zeros
    ghost step = { λ _. laws.idle_step };

    ghost only_reads = { λ _ _. true };

    ghost old_format = { λ _. no_old_format };

    // the image with which the object opens is lawful
    ghost opens = { λ o. program_opens o.lines o.version o.some o.small };

    // no step changes the image, so it stays lawful
    ghost keeps = { λ o image op i w. i };

    // a lawful image begins with the fingerprint
    ghost shape = { λ o. program_shape o.lines o.version };

    ghost replies = { λ o image op i w. laws.zeros_are_words };

    // no step changes the image, so no read does
    ghost leaves = { λ o image op i w reads. refl };

    ghost takes_over = { λ o. takes_over_nothing o.lines o.version (IsProgramImage o.lines o.version) };

    fn lines(&self) -> u64 {
        self.lines
    }

    fn version(&self) -> u64 {
        self.version
    }

    // Writes the opening image: the fingerprint, and then zeros.
    fn format<M: Memory>(&self, mem: &mut M) -> Result<(), Halt> {
        mem.store(0, self.version)?;
        for at in 1..8 * self.lines {
            mem.store(at, 0)?;
        }
        Ok(())
    }

    // Each operation counts as a read.
    fn reads(&self, _op: &OpWords) -> bool {
        true
    }

    fn run_into<M: Memory>(
        &self,
        _mem: &mut M,
        _op: &OpWords,
        reply: &mut OpWords,
    ) -> Result<(), Halt> {
        *reply = [0; OP_WORDS];
        Ok(())
    }

    fn query_into<M: Memory>(
        &self,
        _mem: &mut M,
        _op: &OpWords,
        reply: &mut OpWords,
    ) -> Result<(), Halt> {
        *reply = [0; OP_WORDS];
        Ok(())
    }

    // Whether words may be an image: 8 for each line, the first of which is the fingerprint. It takes no memory.
    fn check(&self, _alloc: Global, words: &[u64]) -> Result<bool, AllocError> {
        Ok(words.len() as u64 == 8 * self.lines && words[0] == self.version)
    }

    // There is no older format of images, so none is read, and none is upgraded.
    fn old_version(&self) -> Option<u64> {
        None
    }

    fn check_old(&self, _alloc: Global, _words: &[u64]) -> Result<bool, AllocError> {
        Ok(false)
    }

    fn upgrade(&self, _words: &mut [u64]) {}
}
