// The stages of a call, and spans of them (document 01, One call).
ghost use Rattle.std.specs.Prelude.{◌≡◌};
ghost use Rattle.call.specs.Roles.{spans};

// How far a call is. (Document 01 wants it as a small enum in the record.)
#[derive(Clone, Copy, PartialEq, Eq)]
pub enum Stage {
    Analysing,
    Alerting,
    Active,
}

// A span of stages.
#[derive(Clone, Copy)]
pub enum Span {
    Analysing,
    BeforeActive,
    Active,
    PastAnalysing,
    Always,
}

pub(crate) fn is_within(x: Span, s: Stage) -> bool
    ensures { result ≡ spans x s }
{
    match x {
        Span::Analysing => s == Stage::Analysing,
        Span::BeforeActive => s != Stage::Active,
        Span::Active => s == Stage::Active,
        Span::PastAnalysing => s != Stage::Analysing,
        Span::Always => true,
    }
}
