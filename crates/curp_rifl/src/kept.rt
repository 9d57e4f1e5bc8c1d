use curp_cmd::Answer;
use std::marker::Model;

/// The answer to a request, and the index of its entry.
#[derive(Clone, Copy)]
pub struct NotedAnswer {
    answer: Answer,
    index: u64,
}

impl Model for NotedAnswer {
    ghost use Rattle.curp_model.specs.Table.{Noted};

    ghost Value = { Noted };

    ghost view = { λ k. record { answer = k.answer; index = k.index } };

    ghost inverse = { λ n. record { answer = n.answer; index = n.index } };
}

ghost use Rattle.std.specs.Prelude.{◌≡◌};

impl NotedAnswer {
    pub fn new(answer: Answer, index: u64) -> NotedAnswer
        ensures answer { result.answer ≡ answer }
        ensures index { result.index ≡ index }
    {
        NotedAnswer { answer, index }
    }

    pub fn answer(&self) -> Answer
        ensures { result ≡ self.now.answer }
    {
        self.answer
    }

    pub fn index(&self) -> u64
        ensures { result ≡ self.now.index }
    {
        self.index
    }
}
