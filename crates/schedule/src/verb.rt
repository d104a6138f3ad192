ghost use Rattle.std.specs.Prelude.{◌≡◌};
ghost use Rattle.schedule.specs.Verbs.{verb_of, written};

use line_words::is_word;
use node_core::Timer;

/// What a line of a schedule asks for.
#[derive(Clone, Copy, Debug, PartialEq, Eq)]
pub enum Verb {
    Timer(Timer),
    Deliver,
    Lose,
    Cut,
    Mend,
    Submit,
    Finish,
    Arm,
    Crash,
    Recover,
    Compact,
}

impl Verb {
    /// The verb that a word is.
    pub fn from_word(word: &[u8]) -> Option<Verb>
        ensures { result ≡ verb_of word.now }
    {
        if let Some(timer) = Timer::from_word(word) {
            Some(Verb::Timer(timer))
        } else if is_word(word, "deliver") {
            Some(Verb::Deliver)
        } else if is_word(word, "lose") {
            Some(Verb::Lose)
        } else if is_word(word, "cut") {
            Some(Verb::Cut)
        } else if is_word(word, "mend") {
            Some(Verb::Mend)
        } else if is_word(word, "submit") {
            Some(Verb::Submit)
        } else if is_word(word, "finish") {
            Some(Verb::Finish)
        } else if is_word(word, "arm") {
            Some(Verb::Arm)
        } else if is_word(word, "crash") {
            Some(Verb::Crash)
        } else if is_word(word, "recover") {
            Some(Verb::Recover)
        } else if is_word(word, "compact") {
            Some(Verb::Compact)
        } else {
            None
        }
    }

    /// The word for it.
    pub fn word(self) -> &'static str
        ensures { result.now ≡ (written self).0 }
    {
        match self {
            Verb::Timer(timer) => timer.word(),
            Verb::Deliver => "deliver",
            Verb::Lose => "lose",
            Verb::Cut => "cut",
            Verb::Mend => "mend",
            Verb::Submit => "submit",
            Verb::Finish => "finish",
            Verb::Arm => "arm",
            Verb::Crash => "crash",
            Verb::Recover => "recover",
            Verb::Compact => "compact",
        }
    }

    /// A name for each field of its act, as they stand behind its word.
    pub fn fields(self) -> &'static str
        ensures { result.now ≡ (written self).1 }
    {
        match self {
            Verb::Timer(_) | Verb::Recover | Verb::Compact => " N",
            Verb::Deliver | Verb::Lose => " K",
            Verb::Cut | Verb::Mend => " A B",
            Verb::Submit => " N QUEUE HEX [P]",
            Verb::Finish => " N ORIGIN ID",
            Verb::Arm => " N K",
            Verb::Crash => " N [HEX]",
        }
    }
}
