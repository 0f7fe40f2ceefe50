//! What a call of the program comes to, with its text.

ghost use Rattle.std.specs.Prelude.{◌≡◌};

use crate::status::Status;
use gl_syntax::Bytes;

/// What a call came to. Its text is whole.
#[derive(Drop)]
pub enum Answer {
    Usage,
    TooLarge,
    Faulty(Bytes),
    Circular(Bytes),
    Written(Bytes),
    TooLong(Bytes),
    Misfit(Bytes),
    Reported(Bytes),
}

impl Answer {
    ghost use Rattle.gl_app.specs.Answer.{status_at, text_at};

    /// The status, where the text is written whole.
    pub fn status(&self) -> Status
        ensures { result ≡ status_at self.now }
    {
        match self {
            Answer::Usage => Status::Usage,
            Answer::TooLarge => Status::TooLarge,
            Answer::Faulty(_) => Status::Plan,
            Answer::Circular(_) => Status::Plan,
            Answer::Written(_) => Status::Done,
            Answer::TooLong(_) => Status::TooLong,
            Answer::Misfit(_) => Status::Order,
            Answer::Reported(_) => Status::Done,
        }
    }

    /// The text. It ends with a line feed.
    pub fn text(&self) -> &[u8]
        ensures { result.now ≡ text_at self.now }
    {
        match self {
            Answer::Usage => b"usage: glazed check | replay ORDER | run | big N\n",
            Answer::TooLarge => b"input: more than 67108864 bytes\n",
            Answer::Faulty(text) => text.as_slice(),
            Answer::Circular(text) => text.as_slice(),
            Answer::Written(text) => text.as_slice(),
            Answer::TooLong(text) => text.as_slice(),
            Answer::Misfit(text) => text.as_slice(),
            Answer::Reported(text) => text.as_slice(),
        }
    }
}
