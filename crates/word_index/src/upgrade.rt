//! Words of version 1 become words of version 2.

ghost use Rattle.std.specs.Prelude.{◌≡◌};
ghost use Rattle.index_validation.specs.Lawful.{IsLawful};
ghost use Rattle.word_index.specs.Upgrading.{upgraded_in, IsMigrated};

use index_validation::InOrder;

/// Makes lawful words of version 1 words of version 2, with the same pairs. Each gets revision 1, and 1 is the last one given, also where
/// there are no pairs.
pub fn upgrade_index(words: &mut [u64])
    requires { IsLawful words.old 1 }
    ensures exact { words.new ≡ upgraded_in words.old }
    ensures migrated { IsMigrated words.old words.new }
{
    words[0] = 2;
    words[6] = 1;
    let mut walk = InOrder::of(words, words[1]);
    for _ in 0..words[5] {
        let node = walk.next_node(words);
        words[8 * node as usize + 7] = 1;
    }
}
