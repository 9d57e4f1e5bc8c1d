use std::fmt;

/// What happened in a script, in numbers.
#[derive(Clone, Copy, PartialEq, Eq)]
pub struct Summary {
    /// Steps that were made, those too that couldn't be done.
    pub steps: u64,
    /// Steps that couldn't be done.
    pub refused: u64,
    /// Messages that were sent.
    pub messages: u64,
    /// What these weigh.
    pub weight: u64,
    /// Requests that completed.
    pub completed: u64,
    /// Requests that stand in the order.
    pub order: u64,
}

impl fmt::Display for Summary {
    ghost use Rattle.std.specs.Prelude.{Some};
    ghost use Rattle.curp_gen.specs.Texts.{summary_text};

    ghost output = { λ s. Some (summary_text s) };

    fn fmt<W: fmt::Write>(&self, f: &mut fmt::Formatter<W>) -> fmt::Result {
        writeln!(f, "steps {}", self.steps)?;
        writeln!(f, "refused {}", self.refused)?;
        writeln!(f, "messages {}", self.messages)?;
        writeln!(f, "weight {}", self.weight)?;
        writeln!(f, "completed {}", self.completed)?;
        writeln!(f, "order {}", self.order)
    }
}
