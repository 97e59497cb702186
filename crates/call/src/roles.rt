// The roles, and what belongs to a role whatever its leg and its number are (document 01, One call).
ghost use Rattle.std.specs.Prelude.{◌≡◌, ◌<◌};
ghost use Rattle.call.specs.Roles.{part_of, place_of, stage_after};

use crate::stages::*;

// What an armable pair of leg and detection point stands for: an event detection point (EDP), by what it tells of the call.
#[derive(Clone, Copy, PartialEq, Eq)]
pub enum Role {
    MidCall,
    Disconnect1,
    Abandon,
    Moved,
    RouteFailure,
    Busy,
    NoAnswer,
    Answer,
    Disconnect2,
    Seized,
}

// A row of the table of roles: the stages at which the role can be met and from which it can still occur, and whether its leg becomes absent when it is met. (`leaves` is a column of its own: the spans are there either way.)
#[derive(Clone, Copy)]
pub struct Part {
    pub met: Span,
    pub occurs: Span,
    pub leaves: bool,
}

fn row(met: Span, occurs: Span, leaves: bool) -> Part
    ensures { result ≡ record { met = met; occurs = occurs; leaves = leaves } }
{
    Part {
        met,
        occurs,
        leaves,
    }
}

// The table of roles.
pub fn part_of(p: Role) -> Part
    ensures { result ≡ part_of p }
{
    match p {
        Role::MidCall => row(Span::Active, Span::Always, false),
        Role::Disconnect1 => row(Span::Active, Span::Always, true),
        Role::Abandon => row(Span::BeforeActive, Span::BeforeActive, true),
        Role::Moved => row(Span::PastAnalysing, Span::Always, false),
        Role::RouteFailure => row(Span::Analysing, Span::Analysing, true),
        Role::Busy => row(Span::BeforeActive, Span::BeforeActive, true),
        Role::NoAnswer => row(Span::BeforeActive, Span::BeforeActive, true),
        Role::Answer => row(Span::BeforeActive, Span::BeforeActive, false),
        Role::Disconnect2 => row(Span::Active, Span::Always, true),
        Role::Seized => row(Span::Analysing, Span::Analysing, false),
    }
}

// The place of a role in `ROLES`, and of its arming among the ten.
pub(crate) fn place_of(p: Role) -> usize
    ensures { (result ≡ place_of p) × (result < 10) }
{
    p as usize
}

// The roles in their places.
pub(crate) const ROLES: [Role; 10] = [
    Role::MidCall,
    Role::Disconnect1,
    Role::Abandon,
    Role::Moved,
    Role::RouteFailure,
    Role::Busy,
    Role::NoAnswer,
    Role::Answer,
    Role::Disconnect2,
    Role::Seized,
];

pub(crate) fn stage_after(p: Role, s: Stage) -> Stage
    ensures { result ≡ stage_after p s }
{
    match p {
        Role::Seized => Stage::Alerting,
        Role::Answer => Stage::Active,
        _ => s,
    }
}
