//! Scans the tokens of JSON for the first byte that can't occur at its position. The notes on documents call it.

use bb_basis::Memory;
use std::alloc::Global;

// The maximum depth that `serde_json` reads.
const DEPTH_LIMIT: usize = 127;

// What may come next.
#[derive(Clone, Copy, Debug, PartialEq, Eq)]
enum Wants {
    Value,
    ValueOrEnd,
    Key,
    KeyOrEnd,
    Colon,
    CommaOrEnd,
    Nothing,
}

// The token that the byte is in.
#[derive(Clone, Copy, Debug, PartialEq, Eq)]
enum Token {
    // Between two tokens.
    None,
    // A string value, or a key.
    Text { is_key: bool },
    // After a backslash in a string or a key.
    Escape { is_key: bool },
    // In an escape by number that lacks `due` digits.
    Digits { is_key: bool, due: u8 },
    // In `true`, `false` or `null`, which lacks these bytes.
    Word(&'static [u8]),
    Number(Number),
}

// The part of a number that was read last.
#[derive(Clone, Copy, Debug, PartialEq, Eq)]
enum Number {
    Sign,
    Zero,
    Whole,
    Point,
    Fraction,
    Exponent,
    ExponentSign,
    ExponentDigits,
}

#[derive(Drop)]
struct Scan {
    wants: Wants,
    token: Token,
    // For each open bracket, whether it belongs to an object.
    open: Vec<bool>,
}

/// Returns the first byte of a text, from 0, that can't occur at its position; the position after the last token if the
/// text ends too early; or `None` if the text has the tokens of JSON in a valid order.
pub fn fault_at(alloc: Global, text: &str) -> Result<Option<usize>, Memory> {
    let mut scan = Scan {
        wants: Wants::Value,
        token: Token::None,
        open: Vec::new(alloc),
    };
    let mut end = 0;
    for (at, byte) in text.bytes().enumerate() {
        if !scan.step(byte)? {
            return Ok(Some(at));
        }
        if !is_blank(byte) {
            end = at.saturating_add(1);
        }
    }
    let is_whole = scan.ends_number() && scan.wants == Wants::Nothing;
    Ok(if is_whole { None } else { Some(end) })
}

fn is_blank(byte: u8) -> bool {
    matches!(byte, b' ' | b'\t' | b'\n' | b'\r')
}

impl Scan {
    // Takes a byte, and returns whether it can occur here.
    fn step(&mut self, byte: u8) -> Result<bool, Memory> {
        match self.token {
            Token::None => self.begin(byte),
            Token::Text { is_key } => Ok(self.in_text(is_key, byte)),
            Token::Escape { is_key } => Ok(self.escaped(is_key, byte)),
            Token::Digits { is_key, due } => {
                self.token = if due > 1 {
                    Token::Digits {
                        is_key,
                        due: due - 1,
                    }
                } else {
                    Token::Text { is_key }
                };
                Ok(byte.is_ascii_hexdigit())
            }
            Token::Word(due) => Ok(self.in_word(due, byte)),
            Token::Number(number) => match next_of(number, byte) {
                Some(next) => {
                    self.token = Token::Number(next);
                    Ok(true)
                }
                None => {
                    if !self.ends_number() {
                        return Ok(false);
                    }
                    self.begin(byte)
                }
            },
        }
    }

    // Ends a number if it may end here. Any other token stays. Returns whether no token is open afterwards.
    fn ends_number(&mut self) -> bool {
        match self.token {
            Token::None => true,
            Token::Number(
                Number::Zero | Number::Whole | Number::Fraction | Number::ExponentDigits,
            ) => {
                self.token = Token::None;
                true
            }
            _ => false,
        }
    }

    fn in_text(&mut self, is_key: bool, byte: u8) -> bool {
        if byte == b'"' {
            self.token = Token::None;
            if is_key {
                self.wants = Wants::Colon;
            }
        } else if byte == b'\\' {
            self.token = Token::Escape { is_key };
        }
        byte >= b' '
    }

    fn escaped(&mut self, is_key: bool, byte: u8) -> bool {
        self.token = if byte == b'u' {
            Token::Digits { is_key, due: 4 }
        } else {
            Token::Text { is_key }
        };
        matches!(
            byte,
            b'"' | b'\\' | b'/' | b'b' | b'f' | b'n' | b'r' | b't' | b'u'
        )
    }

    fn in_word(&mut self, due: &'static [u8], byte: u8) -> bool {
        match due {
            [first, rest @ ..] => {
                self.token = if rest.is_empty() {
                    Token::None
                } else {
                    Token::Word(rest)
                };
                *first == byte
            }
            [] => false,
        }
    }

    // Takes a byte between two tokens.
    fn begin(&mut self, byte: u8) -> Result<bool, Memory> {
        if is_blank(byte) {
            return Ok(true);
        }
        match self.wants {
            Wants::Value => self.begin_value(byte),
            Wants::ValueOrEnd => {
                if byte == b']' {
                    return Ok(self.close(false));
                }
                self.begin_value(byte)
            }
            Wants::Key => Ok(self.begin_key(byte)),
            Wants::KeyOrEnd => {
                if byte == b'}' {
                    return Ok(self.close(true));
                }
                Ok(self.begin_key(byte))
            }
            Wants::Colon => {
                self.wants = Wants::Value;
                Ok(byte == b':')
            }
            Wants::CommaOrEnd => Ok(self.go_on(byte)),
            Wants::Nothing => Ok(false),
        }
    }

    fn begin_key(&mut self, byte: u8) -> bool {
        self.token = Token::Text { is_key: true };
        byte == b'"'
    }

    fn begin_value(&mut self, byte: u8) -> Result<bool, Memory> {
        if byte == b'{' || byte == b'[' {
            return self.open(byte == b'{');
        }
        self.wants = self.behind_value();
        self.token = match byte {
            b'"' => Token::Text { is_key: false },
            b't' => Token::Word(b"rue"),
            b'f' => Token::Word(b"alse"),
            b'n' => Token::Word(b"ull"),
            b'-' => Token::Number(Number::Sign),
            b'0' => Token::Number(Number::Zero),
            b'1'..=b'9' => Token::Number(Number::Whole),
            _ => return Ok(false),
        };
        Ok(true)
    }

    // Returns what may come after a value.
    fn behind_value(&self) -> Wants {
        if self.open.is_empty() {
            Wants::Nothing
        } else {
            Wants::CommaOrEnd
        }
    }

    fn open(&mut self, is_object: bool) -> Result<bool, Memory> {
        if self.open.len() >= DEPTH_LIMIT {
            return Ok(false);
        }
        self.open.push(is_object)?;
        self.wants = if is_object {
            Wants::KeyOrEnd
        } else {
            Wants::ValueOrEnd
        };
        Ok(true)
    }

    // Closes a bracket, and returns whether it is of the kind that is open.
    fn close(&mut self, is_object: bool) -> bool {
        let is_right = self.open.pop() == Some(is_object);
        self.wants = self.behind_value();
        is_right
    }

    // Takes a byte after a value in brackets.
    fn go_on(&mut self, byte: u8) -> bool {
        match byte {
            b',' => {
                self.wants = if self.open.last().copied() == Some(true) {
                    Wants::Key
                } else {
                    Wants::Value
                };
                true
            }
            b'}' => self.close(true),
            b']' => self.close(false),
            _ => false,
        }
    }
}

// Returns the part of a number after one more byte, if the number may continue with that byte.
fn next_of(number: Number, byte: u8) -> Option<Number> {
    let next = match (number, byte) {
        (Number::Sign, b'0') => Number::Zero,
        (Number::Sign, b'1'..=b'9') => Number::Whole,
        (Number::Whole, b'0'..=b'9') => Number::Whole,
        (Number::Zero | Number::Whole, b'.') => Number::Point,
        (Number::Point | Number::Fraction, b'0'..=b'9') => Number::Fraction,
        (Number::Zero | Number::Whole | Number::Fraction, b'e' | b'E') => Number::Exponent,
        (Number::Exponent, b'+' | b'-') => Number::ExponentSign,
        (Number::Exponent | Number::ExponentSign | Number::ExponentDigits, b'0'..=b'9') =>
            Number::ExponentDigits,
        _ => return None,
    };
    Some(next)
}
