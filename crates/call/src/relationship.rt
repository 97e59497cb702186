// The relationship with the service node, computed from the record (document 01, Relationship).
ghost use Rattle.std.specs.Prelude.{◌≡◌};
ghost use Rattle.call.specs.Relationship.{relationship_of};

use crate::armings;
use crate::armings::Mode;
use crate::record::Record;

#[derive(Clone, Copy, PartialEq, Eq)]
pub enum Relationship {
    None,
    Monitor,
    Control,
}

#[tactic(auto, using(crate::proofs::Laws::relationship_by_in_code))]
pub(crate) fn relationship_of(r: Record) -> Relationship
    ensures { result ≡ relationship_of r }
{
    let m = armings::strongest(r.armings);
    if r.hold.is_held() | (m == Mode::Interrupted) {
        return Relationship::Control;
    }
    if (m == Mode::Notify) | r.clock1.is_pending() | r.clock2.is_pending() {
        return Relationship::Monitor;
    }
    Relationship::None
}
