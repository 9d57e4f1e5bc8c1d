ghost use Rattle.std.specs.Prelude.{◌≡◌};
ghost use Rattle.curp_resp.specs.Meaning.{spells, word_of, word_text};

/// The words that a request may begin with.
#[derive(Clone, Copy)]
pub(crate) enum Word {
    Get,
    Set,
    Del,
    Incr,
    IncrBy,
    Append,
    CondPut,
    CondNew,
    SetNx,
    MSet,
    Echo,
}

const WORDS: [Word; 11] = [
    Word::Get,
    Word::Set,
    Word::Del,
    Word::Incr,
    Word::IncrBy,
    Word::Append,
    Word::CondPut,
    Word::CondNew,
    Word::SetNx,
    Word::MSet,
    Word::Echo,
];

impl Word {
    /// The word that the bytes spell, each letter in either case.
    pub(crate) fn of(bytes: &[u8]) -> Option<Word>
        ensures { result ≡ word_of bytes.now }
    {
        WORDS.iter().copied().find(|word| word.is_spelled(bytes))
    }

    fn is_spelled(&self, bytes: &[u8]) -> bool
        ensures { result ≡ spells bytes.now self.now }
    {
        bytes.eq_ignore_ascii_case(self.text().as_bytes())
    }

    fn text(self) -> &'static str
        ensures { result.now ≡ word_text self }
    {
        match self {
            Word::Get => "GET",
            Word::Set => "SET",
            Word::Del => "DEL",
            Word::Incr => "INCR",
            Word::IncrBy => "INCRBY",
            Word::Append => "APPEND",
            Word::CondPut => "CONDPUT",
            Word::CondNew => "CONDNEW",
            Word::SetNx => "SETNX",
            Word::MSet => "MSET",
            Word::Echo => "ECHO",
        }
    }
}
