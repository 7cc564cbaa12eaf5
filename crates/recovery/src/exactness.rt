//! The law that recovery refuses an image exactly where a check fails, unless memory runs out.

ghost use Rattle.std.specs.Prelude.{◌≢◌, Err, MatchResult};
ghost use Rattle.recovery.specs.Recovery.{IsExactly, IsFaultOf, IsRecovered};
ghost use Rattle.recovery.specs.declared.recovered_base.ImageFault.TheVariants.{Memory};

use cx_base::Object;

/// The law that `recover` gives each refusal where its check is the first that an image does not pass, and accepts each image that passes
/// all checks, unless memory runs out. That it gives a refusal only there, and accepts no other image, stands in the contract of `recover`.
pub fn recovering_is_exact<O: Object>()
    ensures { (object : O) (image : _) (answer : _) →
        MatchResult answer
        (IsRecovered (O.version_number object) (O.lawful object) (O.old_format object) image)
        (IsFaultOf (O.version_number object) (O.lawful object) (O.old_format object) image) →
        answer ≢ Err Memory → IsExactly (O.version_number object) (O.lawful object) (O.old_format object) image answer }
{}
