//! Words that are held back from a memory.

ghost use Rattle.std.specs.Prelude.{◌≡◌, ◌+◌, ◌<◌, ◌≤◌, slice_index, slice_set};
ghost use Rattle.write_buffer.specs.Buffering.{AreHinted, IsFree};

/// How many hints there are: as many words as 32 lines have, so that no hint is shared by words of other places in a line.
const HINTS: u64 = 256;

/// How many words are held back at most. That covers each change of an index in at most 16,384 lines, by a count by hand. A pair takes at
/// least 3 lines, so a tree has at most 5,461 pairs; it is at most 17 high, since one 18 high has at least 6,764.
///
/// - A new pair: 139. Three words of each of the 22 lines that the longest pair takes, 5 of the header, and 4 for each of 17 nodes on
///   the way: its links, its height, and that of its other child. The nodes that turn are among these.
/// - A pair that goes: 130. A node loads 4 words on the way up from its higher side, and then does not turn; it loads at most 12 from
///   its lower side, which is two levels down: links and heights of the three nodes that turn, and three heights. So 96 for 16 levels.
///   Then the height of what is left, the 8 words of the node, a word of each of 21 lines of its key and document, and 4 of the header.
/// - A document in place of another of more or fewer blocks: 62. Three words of each of 19 lines, 3 of the header, and 2 of the node.
const ROOM: usize = 192;

/// Words held back from a memory: the place of each, what the memory has there, and what it is to have. At most 192
/// are held back (`ROOM`). A hint that is 0 says that no place of its remainder is among them. Any other is one more than the number of the
/// last such place, if there is one. So few places are searched for.
#[derive(Drop)]
pub struct Held {
    pub count: usize,
    pub places: [u64; ROOM],
    pub found: [u64; ROOM],
    pub values: [u64; ROOM],
    hints: [u8; 256],
    ghost hinted: { AreHinted places count hints },
}

impl Held {
    /// No word.
    pub fn none() -> Held
        ensures { result.count ≡ 0 }
    {
        Held {
            count: 0,
            places: [0; ROOM],
            found: [0; ROOM],
            values: [0; ROOM],
            hints: [0; 256],
        }
    }

    /// Which of the words is that of a place; as many as there are where none is.
    pub fn find(&self, at: u64) -> usize
        requires few { self.now.count ≤ 192 }
        ensures within { result ≤ self.now.count }
        ensures there { result < self.now.count → slice_index self.now.places result ≡ at }
        ensures free { result ≡ self.now.count → IsFree self.now.places self.now.count at }
    {
        let hint = self.hints[(at % HINTS) as usize] as usize;
        if hint == 0 {
            return self.count;
        }
        if hint <= self.count && self.places[hint - 1] == at {
            return hint - 1;
        }
        for i in 0..self.count {
            if self.places[i] == at {
                return i;
            }
        }
        self.count
    }

    /// Holds back one word more, which is as the memory has it.
    pub fn push(&mut self, at: u64, word: u64)
        requires { self.old.count < 192 }
        ensures count { self.new.count ≡ self.old.count + 1 }
        ensures places { self.new.places ≡ slice_set self.old.places self.old.count at }
        ensures found { self.new.found ≡ slice_set self.old.found self.old.count word }
        ensures values { self.new.values ≡ slice_set self.old.values self.old.count word }
    {
        let i = self.count;
        self.places[i] = at;
        self.found[i] = word;
        self.values[i] = word;
        self.hints[(at % HINTS) as usize] = i as u8 + 1;
        self.count = i + 1;
    }
}
