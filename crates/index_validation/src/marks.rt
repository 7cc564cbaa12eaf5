//! Lines that a check of words has reached are marked, so that none is used twice.

ghost use Rattle.std.specs.Prelude.{◌*◌, ◌<◌, ◌≤◌, ◌∷◌, [], length};
ghost use Rattle.std.specs.Bool.{MatchBool};
ghost use Rattle.index_validation.specs.Lawful.{Marks, IsLineMarked, HasChain, NoChain};

/// Marks a line: false where it has its mark already, or there is none for it.
pub fn mark(marks: &mut [bool], line: u64) -> bool
    ensures { MatchBool result ((line < length marks.old) × Marks marks.old (line ∷ []) marks.new) (IsLineMarked marks.old line) }
{
    let at = line as usize;
    if at >= marks.len() || marks[at] {
        return false;
    }
    marks[at] = true;
    true
}

/// Marks the lines of a chain of `count` lines: false where there is no such chain of lines without a mark. Each line
/// is looked at once.
pub fn mark_chain(words: &[u64], marks: &mut [bool], first: u64, count: u64) -> bool
    requires { 8 * length marks.old ≤ length words.now }
    ensures { MatchBool result (HasChain words.now first count marks.old marks.new) (NoChain words.now first count marks.old) }
{
    let mut line = first;
    for _ in 0..count {
        if !mark(marks, line) {
            return false;
        }
        line = words[8 * line as usize];
    }
    line == 0
}
