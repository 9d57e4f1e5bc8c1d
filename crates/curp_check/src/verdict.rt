ghost use Rattle.std.specs.Prelude.{◌≡◌};
ghost use Rattle.curp_check.specs.Verdict.{number_of};

/// What an order of a history has to hold to, in the order in which it is checked.
#[derive(Clone, Copy, Debug, PartialEq, Eq)]
pub enum Clause {
    /// Each request of the order was invoked, with that command, and none stands twice in it.
    Invoked,
    /// Each completed request stands in it.
    Stands,
    /// The answer of each completed request that stands in it is the one that a single thread gives there.
    Answered,
    /// What completed before another was invoked stands before it.
    InTime,
}

impl Clause {
    /// Its number, from 1.
    pub fn number(self) -> u32
        ensures { result ≡ number_of self }
    {
        match self {
            Clause::Invoked => 1,
            Clause::Stands => 2,
            Clause::Answered => 3,
            Clause::InTime => 4,
        }
    }
}

/// Whether an order is one of a history.
#[derive(Clone, Copy, Debug, PartialEq, Eq)]
pub enum Verdict {
    /// It is.
    Yes,
    /// It isn't. The clause is the first that fails.
    No { clause: Clause },
}
