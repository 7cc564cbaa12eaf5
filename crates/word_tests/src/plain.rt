//! The plain programs that the kernels are compared with: word by word, and line by line.

ghost use Rattle.std.specs.Prelude.{◌+◌, ◌*◌, ◌/◌, ◌≤◌, ◌↔◌, IsTrue, length};
ghost use Rattle.line_lanes.specs.Lines.{DiffersInLine, MarksLines, TouchesLine};

// Whether `a` and `b` differ in a word of this line. Both have all words of the line.
fn is_different(a: &[u64], b: &[u64], line: usize) -> bool
    requires a_line { 8 * line + 8 ≤ length a.now }
    requires b_line { 8 * line + 8 ≤ length b.now }
    ensures { IsTrue result ↔ DiffersInLine a.now b.now line }
{
    for at in 8 * line..8 * line + 8 {
        if a[at] != b[at] {
            return true;
        }
    }
    false
}

// Marks the lines in which two lists of words differ: `out` has a mark for each line, whatever it was before, and the lists have all their words.
pub(crate) fn differing(a: &[u64], b: &[u64], out: &mut [bool])
    requires a_lines { 8 * length out.old ≤ length a.now }
    requires b_lines { 8 * length out.old ≤ length b.now }
    ensures { MarksLines (DiffersInLine a.now b.now) out.new }
{
    for (line, differs) in out.iter_mut().enumerate() {
        *differs = is_different(a, b, line);
    }
}

// Whether some address lies in the line.
fn is_touched(addresses: &[u64], line: usize) -> bool
    ensures { IsTrue result ↔ TouchesLine addresses.now line }
{
    for address in addresses {
        if *address / 8 == line as u64 {
            return true;
        }
    }
    false
}

// Marks the lines in which some address lies: `out` has a mark for each line, whatever it was before.
pub(crate) fn touched(addresses: &[u64], out: &mut [bool])
    ensures { MarksLines (TouchesLine addresses.now) out.new }
{
    for (line, marked) in out.iter_mut().enumerate() {
        *marked = is_touched(addresses, line);
    }
}
