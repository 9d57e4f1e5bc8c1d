use crate::board::{Board, Word};
use curp_desk::{Listener, MadeStep};
use curp_seat::Took;
use std::sync::Wait;

/// Whose steps are told, as far as the driver must hear of them.
#[derive(Clone, Copy)]
pub(crate) enum Speaker {
    /// A client, with its number.
    Client(u32),
    /// A master, with its number.
    Master(u32),
    Other,
}

/// Tells the driver what it waits for.
#[derive(Clone, Copy)]
pub(crate) struct Teller<'s> {
    pub speaker: Speaker,
    pub board: &'s Board,
}

impl<'s> Listener for Teller<'s> {
    fn hear_step<R: Wait>(&self, rt: &R, step: MadeStep) {
        if let Some(word) = self.speaker.word_of(step.took) {
            self.board.tell(rt, step.stamp, word);
        }
        if step.completed.is_some() {
            self.board.tell(rt, step.stamp, Word::Completed(1));
        }
    }

    fn hear_shortage<R: Wait>(&self, rt: &R) {
        self.board.tell_failed(rt);
    }
}

impl Speaker {
    /// What the driver must hear of, where it took that.
    fn word_of(self, took: Took) -> Option<Word> {
        match (self, took) {
            (Speaker::Client(client), Took::Configuration { newest }) => {
                Some(Word::Configured { client, newest })
            }
            (Speaker::Master(master), Took::Adopted) => Some(Word::Serving(master)),
            _ => None,
        }
    }
}
