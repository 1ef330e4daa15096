// Texts in order.
ghost use Rattle.std.specs.Prelude.{◌≡◌, List, ℕ};

use mail_bytes::ByteText;
use std::marker::Model;

/// Texts in order, as a control file lists them; contracts see the list of them.
#[derive(Drop)]
pub struct TextList {
    texts: Vec<ByteText>,
}

impl Model for TextList {
    ghost Value = { List (List ℕ) };

    ghost view = { λ l. l.texts.items };
}

impl TextList {
    /// The list of these texts. Takes no memory.
    pub fn from_vec(texts: Vec<ByteText>) -> Self
        ensures { result ≡ texts.items }
    {
        TextList { texts }
    }

    /// Its texts.
    pub fn as_slice(&self) -> &[ByteText]
        ensures { result.now ≡ self.now }
    {
        self.texts.as_slice()
    }

    /// Gives the texts back. Takes no memory.
    pub fn into_vec(self) -> Vec<ByteText>
        ensures { result.items ≡ self }
    {
        self.texts
    }
}
