//! The pairs that words stand for, as a list.

ghost use Rattle.std.specs.Prelude.{◌≡◌, ◌+◌, ◌*◌, ◌<◌, ◌≤◌, IfOk, length};
ghost use Rattle.cx_base.specs.Packing.{unpacked};
ghost use Rattle.index_validation.specs.Layout.{IsIndex};
ghost use Rattle.index_validation.specs.Listing.{HasPlainText};
ghost use Rattle.index_validation.specs.Reading.{text_at, triple_at, revised_in};

use crate::in_order::InOrder;
use crate::node_checks::word_at;
use crate::text_checks::read_content;
use cx_base::{Bytes, unpack};
use doc_model::Pair;
use std::alloc::{AllocError, Global};

/// The first bytes of some words, at most 1,024.
fn bytes_of(alloc: Global, words: &[u64], len: usize) -> Result<Bytes, AllocError>
    requires few { len ≤ 1024 }
    requires there { len ≤ 8 * length words.now }
    ensures { IfOk result (λ bytes. bytes ≡ unpacked len words.now) }
{
    let mut bytes = [0; 1024];
    unpack(words, &mut bytes[..len]);
    Bytes::of(alloc, &bytes[..len])
}

/// The bytes that a node names by its words `at` and `at + 1`, at most 1,024.
fn text_of(alloc: Global, words: &[u64], node: u64, at: usize) -> Result<Bytes, AllocError>
    requires at { at < 7 }
    requires text { HasPlainText words.now node at }
    ensures { IfOk result (λ bytes. bytes ≡ text_at node at words.now) }
{
    let first = word_at(words, node, at);
    let len = word_at(words, node, at + 1);
    let mut content = [0; 133];
    read_content(words, first, len.div_ceil(56) as usize, &mut content);
    bytes_of(alloc, &content, len as usize)
}

/// The pair of a node, with its revision.
fn pair_of(alloc: Global, words: &[u64], node: u64) -> Result<Pair, AllocError>
    requires key { HasPlainText words.now node 3 }
    requires document { HasPlainText words.now node 5 }
    ensures { IfOk result (λ pair. pair ≡ triple_at words.now node) }
{
    let key = text_of(alloc, words, node, 3)?;
    let doc = text_of(alloc, words, node, 5)?;
    let revision = word_at(words, node, 7);
    Ok(Pair { key, doc, revision })
}

/// The pairs that words stand for, each with its revision, in the order of their keys. `Err` means out of memory.
pub fn pairs_of(alloc: Global, words: &[u64]) -> Result<Vec<Pair>, AllocError>
    requires { IsIndex words.now }
    ensures { IfOk result (λ pairs. pairs.items ≡ (revised_in words.now).triples) }
{
    let mut pairs = Vec::new(alloc);
    let mut walk = InOrder::of(words, words[1]);
    for _ in 0..words[5] {
        let node = walk.next_node(words);
        pairs.push(pair_of(alloc, words, node)?)?;
    }
    Ok(pairs)
}
