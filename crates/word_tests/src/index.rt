//! The calls of the index over a memory of 64 lines.

ghost use Rattle.std.specs.Prelude.{◌≡◌, ◌<◌, ◌≤◌, IsTrue, OnOk, length};
ghost use Rattle.cx_base.specs.Memory.{Always};
ghost use Rattle.cx_base.specs.Packing.{unpacked, packed};
ghost use Rattle.cx_base.specs.Store.{IsKey, IsDocument};
ghost use Rattle.word_index.specs.Packed.{IsPacked};
ghost use Rattle.index_validation.specs.Layout.{IsIndex};

use crate::holds::holds;
use cx_base::{Halt, Memory, Steps, VecMemory, pack, packed_unpacks};
use std::marker::Brand;
use std::sync::ledger::{Blank, Ledger};
use std::test::Fail;
use word_index::{Doc, Inserted, Key, find, format_index, insert, read_document};

// The key of these bytes, packed into words.
fn key_of(bytes: &[u8]) -> Key
    requires { IsKey bytes.now }
    ensures packed { IsPacked 8 result.len result.words }
    ensures is { unpacked result.len result.words ≡ bytes.now }
{
    let mut words = [0; 8];
    pack(bytes, &mut words);
    packed_unpacks(bytes, 8);
    Key {
        len: bytes.len() as u64,
        words,
    }
}

// Packs the bytes of a document into `words`, and returns how many bytes they are.
fn pack_document(bytes: &[u8], words: &mut [u64; 128]) -> u64
    requires { IsDocument bytes.now }
    ensures packed { IsPacked 128 result words.new }
    ensures is { unpacked result words.new ≡ bytes.now }
{
    pack(bytes, words);
    packed_unpacks(bytes, 128);
    bytes.len() as u64
}

// Puts a document at a key of an index of 64 lines. It returns whether the key was new, its document was replaced, or there was no room. `visits`
// counts how often the key is compared with that of a node. The memory holds a lawful index before, and unless it halts also after.
pub fn put<M: Memory, L: Ledger>(
    memory: &mut M,
    key: &[u8],
    document: &[u8],
    visits: &mut Steps<L>,
) -> Result<Inserted, Halt>
    requires size { M.size memory.old ≡ 512 }
    requires writable { IsTrue (M.writable memory.old) }
    requires lawful { Always (M.stands memory.old) IsIndex }
    requires key { IsKey key.now }
    requires document { IsDocument document.now }
    ensures size { M.size memory.new ≡ 512 }
    ensures writable { IsTrue (M.writable memory.new) }
    ensures lawful { OnOk result (Always (M.stands memory.new) IsIndex) }
{
    let mut words = [0; 128];
    let len = pack_document(document, &mut words);
    let doc = Doc { len, words: &words };
    let done = insert(memory, 64, &key_of(key), &doc, visits)?;
    Ok(done)
}

// Puts a document of `len` bytes, each of which is `byte`, at a key of an index of 64 lines, and returns how that ended. The memory holds a lawful
// index before, and unless it halts also after.
fn put_same<M: Memory, L: Ledger>(
    memory: &mut M,
    key: &[u8],
    byte: u8,
    len: usize,
    visits: &mut Steps<L>,
) -> Result<Inserted, Halt>
    requires size { M.size memory.old ≡ 512 }
    requires writable { IsTrue (M.writable memory.old) }
    requires lawful { Always (M.stands memory.old) IsIndex }
    requires key { IsKey key.now }
    requires plain { 32 ≤ byte }
    requires some { 1 ≤ len }
    requires short { len ≤ 1024 }
    ensures size { M.size memory.new ≡ 512 }
    ensures writable { IsTrue (M.writable memory.new) }
    ensures lawful { OnOk result (Always (M.stands memory.new) IsIndex) }
{
    let all = [byte; 1024];
    put(memory, key, &all[..len], visits)
}

// Makes the empty index of 64 lines, whatever the words were. It is lawful, unless the memory halts.
pub fn format<M: Memory>(memory: &mut M) -> Result<(), Halt>
    requires size { M.size memory.old ≡ 512 }
    requires writable { IsTrue (M.writable memory.old) }
    ensures size { M.size memory.new ≡ 512 }
    ensures writable { IsTrue (M.writable memory.new) }
    ensures lawful { OnOk result (Always (M.stands memory.new) IsIndex) }
{
    format_index(memory, 2)?;
    Ok(())
}

// The first word of the document of a key, or `None` where the key is missing. The memory holds a lawful index before, and unless it halts also
// after.
fn read<M: Memory, L: Ledger>(
    memory: &mut M,
    key: &[u8],
    visits: &mut Steps<L>,
) -> Result<Option<u64>, Halt>
    requires size { M.size memory.old ≡ 512 }
    requires lawful { Always (M.stands memory.old) IsIndex }
    requires key { IsKey key.now }
    ensures size { M.size memory.new ≡ 512 }
    ensures writable { M.writable memory.new ≡ M.writable memory.old }
    ensures lawful { OnOk result (Always (M.stands memory.new) IsIndex) }
{
    let found = find(memory, &key_of(key), visits)?;
    let Some(node) = found else {
        return Ok(None);
    };
    let mut words = [0; 128];
    read_document(memory, node, &mut words)?;
    Ok(Some(words[0]))
}

// A call on a key, and what it returns.
enum Call {
    // a document is put: its byte, how often it stands there, and whether the key is new
    Put(u8, usize, Inserted),
    // the first word of the document
    Read(Option<u64>),
}

// Each row is a key and a call on it: a put, with the byte of its document, how often it stands there, and what is returned, or a read, with the
// first word that it returns. They are made one after the other on the empty index. 51 to 54 are the digits 3 to 6.
static CALLS: [(u8, Call); 12] = [
    // nothing is there
    (b'a', Call::Read(None)),
    // two keys are put, and one of them again
    (b'b', Call::Put(b'1', 1, Inserted::New)),
    (b'a', Call::Put(b'2', 1, Inserted::New)),
    (b'b', Call::Put(b'3', 1, Inserted::Replaced)),
    (b'b', Call::Read(Some(51))),
    // three long documents fill the lines
    (b'a', Call::Put(52, 1024, Inserted::Replaced)),
    (b'c', Call::Put(53, 1024, Inserted::New)),
    (b'b', Call::Put(54, 1024, Inserted::Replaced)),
    // there is no room for a fourth key
    (b'd', Call::Put(b'6', 1, Inserted::NoRoom)),
    // a shorter document is put in place of a longer one
    (b'c', Call::Put(b'5', 1, Inserted::Replaced)),
    (b'a', Call::Read(Some(0x34343434_34343434))),
    (b'c', Call::Read(Some(53))),
];

// Whether a call on a key returns what the call says. The key is one visible byte. The memory holds a lawful index before, and unless it halts also
// after.
fn is_answered<M: Memory, L: Ledger>(
    memory: &mut M,
    key: u8,
    call: &Call,
    visits: &mut Steps<L>,
) -> Result<bool, Halt>
    requires size { M.size memory.old ≡ 512 }
    requires writable { IsTrue (M.writable memory.old) }
    requires lawful { Always (M.stands memory.old) IsIndex }
    requires visible { (33 ≤ key) × (key ≤ 126) }
    ensures size { M.size memory.new ≡ 512 }
    ensures writable { IsTrue (M.writable memory.new) }
    ensures lawful { OnOk result (Always (M.stands memory.new) IsIndex) }
{
    match call {
        Call::Put(byte, len, wanted) => {
            if *byte < 32 || *len == 0 || *len > 1024 {
                return Ok(false);
            }
            Ok(put_same(memory, &[key], *byte, *len, visits)? == *wanted)
        }
        Call::Read(wanted) => Ok(read(memory, &[key], visits)? == *wanted),
    }
}

// Makes the empty index and then the calls of rows, each on its key, and returns the number of the first that does not return what it says; `None`
// where all do.
fn first_other_call<M: Memory, L: Ledger>(
    memory: &mut M,
    rows: &[(u8, Call)],
    visits: &mut Steps<L>,
) -> Result<Option<usize>, Halt>
    requires size { M.size memory.old ≡ 512 }
    requires writable { IsTrue (M.writable memory.old) }
{
    format(memory)?;
    for (i, (key, call)) in rows.iter().enumerate() {
        if *key < 33 || *key > 126 || !is_answered(memory, *key, call, visits)? {
            return Ok(Some(i));
        }
    }
    Ok(None)
}

// Makes `CALLS` on an index in a plain vector of 512 words, and returns the number of the first that does not return what it says; `None` where all
// do. `blank` is opened as the count of visits of nodes.
fn over_a_vector<L: Ledger>(words: Vec<u64>, blank: Blank) -> Result<Option<usize>, Halt>
    requires long { length words.items ≡ 512 }
    requires name { blank.name ≡ L.name }
    requires parts { blank.parts ≡ L.parts }
    requires some { 0 < L.parts }
{
    let mut memory = VecMemory::of(words, None);
    let mut visits = Steps::<L>::open(blank);
    first_other_call(&mut memory, &CALLS, &mut visits)
}

#[test]
fn two_keys_over_a_vector(rt: HostRuntime) -> Result<(), Fail> {
    let words = vec![in rt.alloc(); 0; 512]?;
    holds(
        &rt,
        over_a_vector::<Brand>(words, Blank::new(1)) == Ok(None),
    );
    Ok(())
}
