//! The law of recovered bases, at Tally.

ghost use Rattle.std.specs.Prelude.{◌≡◌, ◌+◌, ◌^◌, ◌≤◌, ℕ, length};
ghost use Rattle.cx_base.specs.Tally.{IsTally, tally_reads, tally_step};
ghost use Rattle.cx_core.specs.Base.{LawfulBase};
ghost use Rattle.cx_core.specs.Crash.{IsKept};
ghost use Rattle.cx_core.specs.History.{AreLawful, full_image};
ghost use Rattle.cx_core.specs.State.{State};

use core_replica::crash::kept_bases_are_lawful;
use cx_base::tally::Tally;
use cx_core::Base;
use std::test::Fail;

// For any number of callers and any lawful history that ends at place 2^40 or before: if a crash may keep `kept` of a state, then `kept` is a
// lawful base of Tally, and its words are the full image of the history at its place.
fn law(base: &Base)
    requires { LawfulBase 64 IsTally base.now }
    ensures { (callers : ℕ) (history : _) (s : State) (kept : _) → AreLawful base.now.place history → base.now.place + length history ≤ 2 ^ 40 →
        IsKept (record { callers = callers; base = base.now; step = tally_step; reads = tally_reads }) history s kept →
        LawfulBase 64 IsTally kept × (kept.words ≡ full_image tally_step base.now history kept.place) }
{
    kept_bases_are_lawful(&Tally, base);
}

// Calls `law` with the fresh base. The test is that the contract of `law` is proved.
#[test]
fn recovered_bases_of_tally_are_lawful(rt: HostRuntime) -> Result<(), Fail> {
    law(&Base::fresh(rt.alloc(), &Tally)?);
    Ok(())
}
