//! Where a machine stands whose run was put back.

ghost use Rattle.std.specs.Prelude.{◌≡◌};
ghost use Rattle.ns_machine.specs.Restored as spec;

use crate::stage::Stage;
use ns_machine_thaw::thawed::Thawed;

/// Where it stands.
pub fn stage_of(thawed: Thawed) -> Stage
    ensures { result ≡ spec.stage_of thawed }
{
    match thawed {
        Thawed::Unbegun { arguments } => Stage::Unbegun { arguments },
        Thawed::Begun(next) => Stage::Begun(next),
    }
}
