// The numbered refusals (document 01, Numbered refusals; 15 is document 02's, T-02).
ghost use Rattle.std.specs.Prelude.{ℕ, ◌≡◌};
ghost use Rattle.forms.specs.Refusal.{number_of};

// What applies, with the paper's numbers. Each is told by its number alone.
#[derive(Clone, Copy, Debug, PartialEq, Eq)]
pub enum Refusal {
    MalformedItem = 1,
    MalformedProfile = 2,
    DamagedTable = 3,
    CallNotOpen = 4,
    CallOpen = 5,
    TableFull = 6,
    EarlierTime = 7,
    NoControl = 8,
    Held = 9,
    NotHeld = 10,
    BadEntry = 11,
    Impossible = 12,
    ChargePending = 13,
    PeriodNotOver = 14,
    FeederClosed = 15,
}

impl Refusal {
    pub fn number(self) -> u8
        ensures { result ≡ number_of self }
    {
        self as u8
    }
}

// What tells a refusal: one of these, or a number by itself. (So `call`'s `refuse` and `table`'s `line` take any number, also one that the papers do not give.)
pub trait Reason: Copy {
    ghost told_by: { Self → ℕ };

    fn told(&self) -> u8
        ensures { result ≡ told_by self.now };
}

impl Reason for Refusal {
    ghost told_by = { number_of };

    fn told(&self) -> u8
        ensures { result ≡ number_of self.now }
    {
        self.number()
    }
}

impl Reason for u8 {
    ghost told_by = { λ n. n };

    fn told(&self) -> u8
        ensures { result ≡ self.now }
    {
        *self
    }
}
