//! The scanner: finds the beginning and the end of each token. The parser asks for one token at a time.

ghost use Rattle.std.specs.Prelude.{◌≡◌, ◌≤◌, length, Some, None, IfSome, false};
ghost use Rattle.std.specs.List.{take_while};
ghost use Rattle.bb_basis.specs.Names.{is_small_letter, is_digit, is_name_byte};
ghost use Rattle.bb_lang_tree.specs.Tokens.{is_blank, begins_comment, blank_len, is_escape, text_len, is_symbol};
ghost use Rattle.bb_lang_tree.specs.Tokens.{begins_at_most, token_at, is_word, is_int, is_text, is_end};

/// The kind of a token.
#[derive(Clone, Copy, Debug)]
pub enum TokenKind {
    /// A name, or a reserved word.
    Word,
    /// Digits.
    Int,
    /// A text constant in its quotes.
    Text,
    /// One of the symbols.
    Symbol,
    /// The end of the text.
    End,
}

impl TokenKind {
    /// Returns whether the token is a name or a reserved word.
    pub fn is_word(self) -> bool
        ensures { result ≡ is_word self }
    {
        matches!(self, TokenKind::Word)
    }

    /// Returns whether the token is digits.
    pub fn is_int(self) -> bool
        ensures { result ≡ is_int self }
    {
        matches!(self, TokenKind::Int)
    }

    /// Returns whether the token is a text constant.
    pub fn is_text(self) -> bool
        ensures { result ≡ is_text self }
    {
        matches!(self, TokenKind::Text)
    }

    /// Returns whether the token is the end of the text.
    pub fn is_end(self) -> bool
        ensures { result ≡ is_end self }
    {
        matches!(self, TokenKind::End)
    }
}

fn is_blank(byte: u8) -> bool
    ensures { result ≡ is_blank byte }
{
    byte == b' ' || byte == b'\t' || byte == b'\r' || byte == b'\n'
}

pub(crate) fn is_name_byte(byte: u8) -> bool
    ensures { result ≡ is_name_byte byte }
{
    byte.is_ascii_lowercase() || byte.is_ascii_digit() || byte == b'_'
}

fn begins_comment(bytes: &[u8]) -> bool
    ensures { result ≡ begins_comment bytes.now }
{
    match bytes {
        [first, second, ..] => *first == b'/' && *second == b'/',
        _ => false,
    }
}

fn begins_at_most(bytes: &[u8]) -> bool
    ensures { result ≡ begins_at_most bytes.now }
{
    match bytes {
        [first, second, ..] => *first == b'<' && *second == b'=',
        _ => false,
    }
}

/// Returns how many bytes of blanks and comments come first.
pub(crate) fn blank_len(bytes: &[u8]) -> usize
    ensures len { result ≡ blank_len false bytes.now }
    ensures within { result ≤ length bytes.now }
{
    let mut in_comment = false;
    for i in 0..bytes.len() {
        let byte = bytes[i];
        if in_comment {
            in_comment = byte != b'\n';
            continue;
        }
        if is_blank(byte) {
            continue;
        }
        if !begins_comment(&bytes[i..]) {
            return i;
        }
        in_comment = true;
    }
    bytes.len()
}

fn is_escape(byte: u8) -> bool
    ensures { result ≡ is_escape byte }
{
    byte == b'"' || byte == b'\\' || byte == b'n' || byte == b't'
}

// Returns how many bytes a text constant has after its opening quote. `None`: it does not end, or has a wrong escape or
// a control character.
fn text_len(bytes: &[u8]) -> Option<usize>
    ensures len { result ≡ text_len false bytes.now }
    ensures within { IfSome result (λ n. n ≤ length bytes.now) }
{
    let mut escaped = false;
    for i in 0..bytes.len() {
        let byte = bytes[i];
        if escaped {
            if !is_escape(byte) {
                return None;
            }
            escaped = false;
            continue;
        }
        if byte == b'"' {
            return Some(i + 1);
        }
        if byte < b' ' {
            return None;
        }
        escaped = byte == b'\\';
    }
    None
}

fn is_symbol(byte: u8) -> bool
    ensures { result ≡ is_symbol byte }
{
    b"{}()[];,.:=<+-*/%".contains(&byte)
}

fn word_len(bytes: &[u8]) -> usize
    ensures len { result ≡ length (take_while is_name_byte bytes.now) }
    ensures within { result ≤ length bytes.now }
{
    bytes.iter().take_while(|byte| is_name_byte(**byte)).count()
}

fn int_len(bytes: &[u8]) -> usize
    ensures len { result ≡ length (take_while is_digit bytes.now) }
    ensures within { result ≤ length bytes.now }
{
    bytes
        .iter()
        .take_while(|byte| byte.is_ascii_digit())
        .count()
}

/// Returns the kind and the length of the token at the start of bytes that do not begin with a blank or comment.
/// `None`: the bytes do not begin with a token.
#[tactic(auto, unfolding(crate::specs::Tokens::token_at))]
pub(crate) fn token_at(bytes: &[u8]) -> Option<(TokenKind, usize)>
    ensures token { result ≡ token_at bytes.now }
    ensures within { IfSome result (λ t. t.1 ≤ length bytes.now) }
{
    let [first, behind @ ..] = bytes else {
        return Some((TokenKind::End, 0));
    };
    if first.is_ascii_lowercase() {
        return Some((TokenKind::Word, word_len(bytes)));
    }
    if first.is_ascii_digit() {
        return Some((TokenKind::Int, int_len(bytes)));
    }
    if *first == b'"' {
        let len = text_len(behind)?;
        return Some((TokenKind::Text, len + 1));
    }
    if begins_at_most(bytes) {
        return Some((TokenKind::Symbol, 2));
    }
    if is_symbol(*first) {
        return Some((TokenKind::Symbol, 1));
    }
    None
}
