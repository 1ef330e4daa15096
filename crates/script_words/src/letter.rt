// The letter of a delivery report.
ghost use Rattle.std.specs.Prelude.{◌≡◌, ◌≢◌, IfOk, OnErr};
ghost use Rattle.script_words.specs.declared.letter.Letter.{Letter as LetterOf};
ghost use Rattle.script_words.specs.Words.{letter_byte, letter_text};

use crate::WordError;

/// How a delivery went, by the letter of its report, as qmail-remote(8) gives it of a message.
#[derive(Clone, Copy)]
pub enum Letter {
    /// `K`: success.
    Success,
    /// `Z`: a temporary failure.
    Deferral,
    /// `D`: a permanent failure.
    Failure,
}

impl Letter {
    /// The letter itself.
    pub fn byte(self) -> u8
        ensures { result ≡ letter_byte self }
    {
        match self {
            Letter::Success => b'K',
            Letter::Deferral => b'Z',
            Letter::Failure => b'D',
        }
    }
}

/// Reads the letter of a report. `Malformed` exactly if the word is none.
pub fn read_letter(word: &[u8]) -> Result<Letter, WordError>
    ensures ok { IfOk result (λ letter. word.now ≡ letter_text letter) }
    ensures err { OnErr result ((letter : LetterOf) → word.now ≢ letter_text letter) }
{
    match word {
        b"K" => Ok(Letter::Success),
        b"Z" => Ok(Letter::Deferral),
        b"D" => Ok(Letter::Failure),
        _ => Err(WordError::Malformed),
    }
}
