// Single bytes of a text, by the grammar.
ghost use Rattle.std.specs.Prelude.{◌≡◌, drop};
ghost use Rattle.grammar.specs.Grammar.{is_lower, is_upper, is_digit, is_word};
ghost use Rattle.grammar.specs.Reader.{is_blank};
ghost use Rattle.lex.specs.Turns.{stands_at};

pub fn is_blank(byte: u8) -> bool
    ensures { result ≡ is_blank byte }
{
    byte == b' ' || (byte == b'\n' || byte == b'\r')
}

pub fn is_lower(byte: u8) -> bool
    ensures { result ≡ is_lower byte }
{
    byte.is_ascii_lowercase()
}

pub fn is_upper(byte: u8) -> bool
    ensures { result ≡ is_upper byte }
{
    byte == b'_' || byte.is_ascii_uppercase()
}

pub fn is_digit(byte: u8) -> bool
    ensures { result ≡ is_digit byte }
{
    byte.is_ascii_digit()
}

pub fn is_word(byte: u8) -> bool
    ensures { result ≡ is_word byte }
{
    is_lower(byte) || (is_upper(byte) || is_digit(byte))
}

// Whether this byte stands at a place.
pub fn stands(text: &[u8], at: usize, byte: u8) -> bool
    ensures { result ≡ stands_at byte (drop at text.now) }
{
    at < text.len() && text[at] == byte
}
