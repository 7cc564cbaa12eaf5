//! Memories of words, of which a caller may know only a part.

ghost use Rattle.std.specs.Prelude.{◌≡◌, ◌+◌, ◌^◌, ◌<◌, ◌≤◌, ◌↔◌, ℕ, Bool, true, List, Option, Some, All, length, IsTrue, IsErr, OnErr, OnOk, IfOk};
ghost use Rattle.cx_base.specs.Memory.{Words, Accessed, Loaded, Stored, AreAt, Becomes, Reads, Framed, Known, one_less, words_from_known};

/// A step that the step limit refused.
#[derive(Clone, Copy, Debug, PartialEq, Eq)]
pub struct Halt;

/// A memory of words of 64 bits. A caller knows which pairs stand: what the memory may have held at an earlier
/// moment, and the words that it then holds now. Each load and store says how these pairs change.
pub trait Memory {
    /// The number of its words.
    ghost size: { Self → ℕ };

    /// What no access changes. It tells one memory from another.
    ghost Fixed: { Type 0 };

    ghost fixed: { Self → Fixed };

    /// Whether stores are allowed. No access changes it.
    ghost writable: { Self → Bool };

    /// How many accesses are still allowed, where there is a limit.
    ghost left: { Self → Option ℕ };

    /// What tells apart what it may have held first: a list of words for most memories.
    ghost Key: { Type 0 };

    /// Whether it may have held `first` first, and then hold `now` now.
    ghost stands: { Self → Key → List ℕ → Type 0 };

    /// Gives the word at a place. `Halt` comes exactly where no access is left, and then nothing changes.
    fn load(&mut self, at: u64) -> Result<u64, Halt>
        requires { at < size self.old }
        ensures access { Accessed size fixed writable left stands self.old self.new result }
        ensures stands { IfOk result (λ v. Loaded at v (stands self.old) (stands self.new)) };

    /// Gives the words from a place on, each by one access. `Halt` comes only where no access is left.
    fn load_words(&mut self, at: u64, into: &mut [u64]) -> Result<(), Halt>
        requires within { (at + length into.old ≤ size self.old) × (at + length into.old < 2 ^ 64) }
        ensures read { OnOk result (Reads (stands self.old) (stands self.new) (AreAt at into.new)) }
        ensures unchanged { Becomes (stands self.old) (stands self.new) ◌≡◌ }
        ensures halts { OnErr result (left self.new ≡ Some 0) }
        ensures framed { Framed size fixed writable left self.old self.new }
        ensures length { length into.new ≡ length into.old }
    {
        for i in 0..into.len() {
            into[i] = self.load(at + i as u64)?;
        }
        Ok(())
    }

    /// Puts a word at a place. `Halt` comes exactly where no access is left, and then nothing changes.
    fn store(&mut self, at: u64, v: u64) -> Result<(), Halt>
        requires at { at < size self.old }
        requires writable { IsTrue (writable self.old) }
        ensures access { Accessed size fixed writable left stands self.old self.new result }
        ensures stands { IfOk result (λ _. Stored at v (stands self.old) (stands self.new)) };

    /// Some pair always stands.
    ghost some_stands: { (m : Self) → ∥ ((first : Key) × (now : List ℕ) × stands m first now) ∥₁ };

    /// What it may hold now is that many words.
    ghost words: { (m : Self) (first : Key) (now : List ℕ) → stands m first now → Words (size m) now };
}

/// A memory over a vector. It is writable, and its words are one known list.
#[derive(Drop)]
pub struct VecMemory {
    words: Vec<u64>,
    left: Option<u64>,
    ghost fit: { All (λ x. x < 2 ^ 64) words.items },
}

impl VecMemory {
    ghost use Rattle.cx_base.specs.VecMemory.{words_of};

    /// A memory of these words, with that many accesses still allowed; `None` is no limit. It takes no memory.
    pub fn of(words: Vec<u64>, left: Option<u64>) -> VecMemory
        ensures words { words_of result ≡ words.items }
        ensures left { result.left ≡ left }
    {
        VecMemory { words, left }
    }

    /// Gives the words back.
    pub fn into_words(self) -> Vec<u64>
        ensures { result.items ≡ words_of self }
    {
        let VecMemory { words, left: _ } = self;
        words
    }

    /// Counts one access. Where none is left, nothing changes.
    fn count(&mut self) -> Result<(), Halt>
        ensures halts { IsErr result ↔ (self.old.left ≡ Some 0) }
        ensures left { self.new.left ≡ one_less self.old.left }
        ensures words { self.new.words ≡ self.old.words }
    {
        match self.left {
            Some(0) => return Err(Halt),
            Some(n) => self.left = Some(n - 1),
            None => {}
        }
        Ok(())
    }
}

impl Memory for VecMemory {
    ghost size = { λ m. length m.words.items };

    ghost Fixed = { ℕ };

    ghost fixed = { λ m. length m.words.items };

    ghost writable = { λ _. true };

    ghost left = { λ m. m.left };

    ghost Key = { List ℕ };

    ghost stands = { λ m. Known m.words.items };

    ghost some_stands = { λ m. ∣ (m.words.items, m.words.items, record { first_fits = record { long = Prim.search; fit = m.fit }; same = Prim.search }) ∣₁ };

    ghost words = { λ m first now s. words_from_known m.words.items first now m.fit s };

    fn load(&mut self, at: u64) -> Result<u64, Halt> {
        self.count()?;
        Ok(self.words[at as usize])
    }

    fn store(&mut self, at: u64, v: u64) -> Result<(), Halt> {
        self.count()?;
        self.words[at as usize] = v;
        Ok(())
    }
}
