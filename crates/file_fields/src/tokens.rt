//! Stretches of the file, by what they are.
ghost use Rattle.std.specs.Prelude.{◌≡◌};
ghost use Rattle.std.specs.Option.{option_map};
ghost use Rattle.file_fields.specs.Tokens.{word_of, shown};

/// A stretch of the file: a word, a letter, a number, or what parts them.
#[derive(Clone, Copy)]
pub enum Token<'a> {
    Key(&'a [u8]),
    Letter(&'a [u8]),
    Number(&'a [u8]),
    Separator(&'a [u8]),
}

/// The token that a stretch of bytes is.
pub(crate) fn token_of<'a>(s: &'a [u8]) -> Option<Token<'a>>
    ensures { option_map shown result ≡ word_of s.now }
{
    match s {
        [b',' | b'=' | b'\n'] => Some(Token::Separator(s)),
        [b'A'..=b'Z'] => Some(Token::Letter(s)),
        [b'a'..=b'z', ..] => Some(Token::Key(s)),
        [b'-' | b'0'..=b'9', ..] => Some(Token::Number(s)),
        _ => None,
    }
}
