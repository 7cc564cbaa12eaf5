//! A load: a script that is made and run, of which four lines are printed.

ghost use Rattle.std.specs.Prelude.{◌≡◌, [], ◌∷◌, IfOk};
ghost use Rattle.cx_core.specs.Base.{LawfulBase};
ghost use Rattle.cx_core.specs.Region.{object_part};
ghost use Rattle.doc_model.specs.Revisions.{RevisedStore};
ghost use Rattle.doc_store.specs.ExactStep.{IsImageOfStore};
ghost use Rattle.doc_text.specs.Generated.{IsLoad, generated_life};
ghost use Rattle.doc_text.specs.Summary.{summary_text};
ghost use Rattle.index_validation.specs.Reading.{StandsForRevised};
ghost use Rattle.life_records.specs.declared.record.LifeRecord as record_life;
ghost use Rattle.doc_commands.specs.ScriptTexts.{HaveStoresLived, IsSummary, store_left};

use crate::lives::run_lives;
use cx_base::{Gate, Items};
use cx_core::{Base, OBJECT_START};
use cx_lives::Lived;
use cx_table::Trail;
use doc_model::{Pair, Reply};
use doc_store::documents;
use doc_text::{generated, summary};
use std::alloc::{AllocError, Global};
use std::sync::Wait;
use std::thread::Threads;

/// Four lines on the life of the script that a load makes, and its trail: see `doc_text::generated`. `Err` means out of memory. It may wait.
pub fn summary_of_load<R: Threads + Wait + Sync, G: Gate + Sync>(
    rt: &R,
    alloc: Global,
    from: u64,
    clients: u32,
    ops: u64,
    gate: &G,
) -> Result<(Vec<u8>, Items<Trail>), AllocError>
    requires { IsLoad from clients ops }
    ensures { IfOk result (λ made. IsSummary from clients ops made.1 made.0.items) }
{
    let script = generated(alloc, from, clients, ops)?;
    let lived = run_lives(rt, alloc, &script, gate)?;
    let text = text_of_life(alloc, from, clients, ops, &lived)?;
    Ok((text, lived.trails))
}

/// The four lines on the life of a load: the text of its record and of the store that the life left.
fn text_of_life(
    alloc: Global,
    from: u64,
    clients: u32,
    ops: u64,
    lived: &Lived<Reply>,
) -> Result<Vec<u8>, AllocError>
    requires { HaveStoresLived 1024 (generated_life from clients ops ∷ []) lived.now }
    ensures { (report : record_life.LifeRecord Reply) → lived.now.records ≡ report ∷ [] → IfOk result (λ text. text.items ≡ summary_text report (store_left 1024 (generated_life from clients ops) report).triples) }
{
    let [report] = lived.records.as_slice() else {
        unreachable!()
    };
    let Some(base) = &lived.base else {
        unreachable!()
    };
    let pairs = pairs_of(alloc, base)?;
    summary(alloc, report, &pairs)
}

/// The pairs of the store that a base stands for.
fn pairs_of(alloc: Global, base: &Base) -> Result<Vec<Pair>, AllocError>
    requires { LawfulBase 1024 (IsImageOfStore 1024) base.now }
    ensures { (store : RevisedStore) → StandsForRevised (object_part base.now.words) store → IfOk result (λ pairs. pairs.items ≡ store.triples) }
{
    let (_, part) = base.words.as_slice().split_at(OBJECT_START as usize);
    documents(alloc, part)
}
