// Monitor modes, and the armings of the ten roles (document 01, One call).
ghost use Rattle.std.specs.Prelude.{◌≡◌, [], ◌∷◌};
ghost use Rattle.call.specs.Armings.{mode_of, no_armings, mode_at, nothing_armed, disarmed, strongest};
ghost use Rattle.call.specs.declared.armings.Mode.TheVariants as mode;

use crate::roles;
use crate::roles::Role;

// The monitor mode of an armed point: interrupted is 0, notify and continue 1. They stand by their strength, so `max` is the stronger.
#[derive(Clone, Copy, PartialEq, Eq, PartialOrd, Ord)]
pub enum Mode {
    None,
    Notify,
    Interrupted,
}

// What the record keeps of a role: how it is armed.
#[derive(Clone, Copy)]
pub struct Arming {
    pub mode: Mode,
}

pub(crate) const UNARMED: Arming = Arming { mode: Mode::None };

// By monitorMode; 2 and what is no mode disarm. (A bad mode is refused before, by refusal 11.)
impl From<u8> for Mode {
    ghost from_gives = { λ n m. m ≡ mode_of n };

    fn from(n: u8) -> Mode {
        match n {
            0 => Mode::Interrupted,
            1 => Mode::Notify,
            _ => Mode::None,
        }
    }
}

pub(crate) fn no_armings() -> [Arming; 10]
    ensures { result ≡ no_armings }
{
    [UNARMED; 10]
}

pub(crate) fn mode_at(p: Role, a: [Arming; 10]) -> Mode
    ensures { result ≡ mode_at p a }
{
    a[roles::place_of(p)].mode
}

// The strongest mode that is armed, which tells the relationship, in one pass. (LLVM makes a vector's maximum of it.)
#[tactic(auto, using(crate::proofs::Laws::strongest_end))]
pub(crate) fn strongest(a: [Arming; 10]) -> Mode
    ensures { result ≡ strongest mode.None a }
{
    let mut m = Mode::None;
    for x in a {
        m = m.max(x.mode);
    }
    m
}

// No point is armed.
#[tactic(auto, using(crate::proofs::Laws::nothing_by_in_code))]
pub(crate) fn nothing_armed(a: [Arming; 10]) -> bool
    ensures { result ≡ nothing_armed a }
{
    strongest(a) == Mode::None
}

// What is left of the armings without those of the roles.
pub(crate) fn without(ps: &[Role], a: [Arming; 10]) -> [Arming; 10]
    ensures { result ≡ disarmed ps.now a }
{
    let mut b = a;
    for p in ps {
        b[roles::place_of(*p)] = UNARMED;
    }
    b
}
