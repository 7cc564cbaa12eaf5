//! Laws on what a pass learns when a caller is given back, and on which callers a client may keep. Each is the contract of a function that does nothing.

ghost use Rattle.std.specs.Prelude.{◌≡◌, ◌⊎◌, ℕ, List, [], ◌∷◌, ◌++◌};
ghost use Rattle.cx_core.specs.declared.local.Answer as local_answer;
ghost use Rattle.table_invariant.specs.Seats.{Seated};
ghost use Rattle.cx_service.specs.Callers.{StoppedSeat};
ghost use Rattle.cx_service.specs.Lookups.{ReadHalted};
ghost use Rattle.cx_service.specs.Submits.{next_entry};
ghost use Rattle.cx_service.specs.Updates.{UpdateDone, UpdateHalted};
ghost use Rattle.cx_service.specs.declared.close.Handed.TheVariants as handed_cases;
ghost use Rattle.seat_pool.specs.Gathering.{Gathers, StaysIdle};
ghost use Rattle.seat_pool.specs.Pooling.{IsFirstOf, call_with, told_calls_after_giving, with_given};
ghost use Rattle.seat_pool.specs.declared.hand.LenderPass as hand_hand;

use cx_base::Object;
use cx_service::Service;

/// The law that a caller that an update answered may be given back by the pass that took it last, also where it made calls without an answer before: in that
/// push the pass learns of one call, the update's entry with its answer.
pub fn answers_are_told<O: Object>(service: &Service<O>)
    ensures { (op : List ℕ) (taken before after : Seated) (rest : List Seated) (answer : local_answer.Answer) (v : hand_hand.LenderPass) → v.held ≡ taken ∷ rest → StaysIdle service.now taken before → UpdateDone service.now op before after answer →
        IsFirstOf v.held after × (told_calls_after_giving v after ≡ v.told_calls ++ call_with before.known.local.number (next_entry service.now before.known.local op answer.ticket) answer ∷ []) }
{}

/// The law that a caller that was answered no entry since it was taken may be given back: in that push the pass learns of no call, and of the reads
/// that the caller made since.
pub fn reads_are_shown<O: Object>(service: &Service<O>)
    ensures { (taken now : Seated) (rest : List Seated) (v : hand_hand.LenderPass) → v.held ≡ taken ∷ rest → (idle : StaysIdle service.now taken now) →
        IsFirstOf v.held now × (told_calls_after_giving v now ≡ v.told_calls) × ((with_given v now).shown ≡ v.shown ++ idle.more) }
{}

/// The law that a client may keep a caller until the closing where the caller is in no call and was answered no entry since it was taken.
pub fn idle_are_kept<O: Object>(service: &Service<O>)
    ensures { (taken now : Seated) → StaysIdle service.now taken now → Gathers service.now (taken ∷ []) (handed_cases.Idle now ∷ []) }
{}

/// The law that a client may keep a caller until the closing where an update or a read stopped it: at most one of its answered calls is known to no pass.
pub fn stopped_are_kept<O: Object>(service: &Service<O>)
    ensures { (op : List ℕ) (taken before : Seated) (stopped : StoppedSeat) → StaysIdle service.now taken before → UpdateHalted service.now op before stopped ⊎ ReadHalted service.now op before stopped →
        Gathers service.now (taken ∷ []) (handed_cases.Stopped stopped ∷ []) }
{}
