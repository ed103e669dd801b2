//! The values of numbers and text constants. Readers of the grammar call these functions if they expect one.

ghost use Rattle.std.specs.Prelude.{◌≡◌, ◌≤◌, ◌<◌, ◌^◌, pos, neg_ℤ, nat_le, drop, Some, None, if◌then◌else◌, false, IfOk, IfSome, OnOk};
ghost use Rattle.std.specs.Str.Lossy.{utf8_lossy};
ghost use Rattle.bb_basis.specs.Results.{Gives};
ghost use Rattle.bb_lang_tree.specs.declared.fault.LangFault.TheVariants.{Memory as OutOfMemory};
ghost use Rattle.bb_lang_tree.specs.Literals.{with_digits, number_at, number, int, divisor, escape_of};
ghost use Rattle.bb_lang_tree.specs.Literals.{text_bytes, text_at, text};

use crate::fault::LangFault;
use crate::parser::Parser;
use bb_basis::Text;
use std::alloc::{AllocError, Global};

/// The maximum length of a text constant's value, in bytes.
pub const TEXT_LIMIT: usize = 65_535;

// Returns the number that digits spell, if it is at most `limit`.
fn number_of(digits: &[u8], limit: u64) -> Option<u64>
    ensures number { result ≡ if nat_le (with_digits 0 digits.now) limit then Some (with_digits 0 digits.now) else None }
    ensures within { IfSome result (λ n. n ≤ limit) }
{
    let limit = u128::from(limit);
    let mut number: u128 = 0;
    for digit in digits {
        number = number * 10 + u128::from(digit.saturating_sub(b'0'));
        if number > limit {
            return None;
        }
    }
    Some(number as u64)
}

// Returns the negative of a number.
fn negated(number: u64) -> i64
    requires { number ≤ 2 ^ 63 }
    ensures { result ≡ neg_ℤ (pos number) }
{
    (-i128::from(number)) as i64
}

// Returns a number as it is.
fn signed(number: u64) -> i64
    requires { number < 2 ^ 63 }
    ensures { result ≡ pos number }
{
    number as i64
}

// Returns all bytes except the first.
fn behind_first(bytes: &[u8]) -> &[u8]
    ensures { result.now ≡ drop 1 bytes.now }
{
    match bytes {
        [] => bytes,
        [_, behind @ ..] => behind,
    }
}

fn escape_of(byte: u8) -> u8
    ensures { result ≡ escape_of byte }
{
    match byte {
        b'n' => b'\n',
        b't' => b'\t',
        _ => byte,
    }
}

// Returns the value of the bytes after an opening quote, up to the closing one.
fn text_bytes(alloc: Global, bytes: &[u8]) -> Result<Vec<u8>, AllocError>
    ensures { IfOk result (λ v. v.items ≡ text_bytes false bytes.now) }
{
    let mut text = Vec::new(alloc);
    let mut escaped = false;
    for byte in bytes {
        if escaped {
            text.push(escape_of(*byte))?;
            escaped = false;
            continue;
        }
        if *byte == b'"' {
            return Ok(text);
        }
        if *byte == b'\\' {
            escaped = true;
            continue;
        }
        text.push(*byte)?;
    }
    Ok(text)
}

impl<'a> Parser<'a> {
    // Returns the token INT as a number up to `limit`, without consuming it.
    #[tactic(auto, unfolding(crate::specs::Literals::number_at))]
    fn number_at(&self, limit: u64) -> Result<u64, LangFault>
        ensures number { Gives OutOfMemory (λ n. n) result (number_at limit self.now.state) }
        ensures within { IfOk result (λ n. n ≤ limit) }
    {
        let place = self.place();
        if !self.kind().is_int() {
            return Err(LangFault::Token { place });
        }
        number_of(self.token(), limit).ok_or(LangFault::Limit { place })
    }

    // Reads INT, a number up to `limit`.
    #[tactic(auto, unfolding(crate::specs::Literals::number))]
    fn read_number(&mut self, limit: u64) -> Result<u64, LangFault>
        ensures read { Gives OutOfMemory (λ n. (n, self.new.state)) result (number limit self.old.state) }
        ensures nesting { OnOk result (self.new.nesting ≡ self.old.nesting) }
        ensures within { IfOk result (λ n. n ≤ limit) }
    {
        let number = self.number_at(limit)?;
        self.advance()?;
        Ok(number)
    }

    /// Reads a whole number, with or without a `-`. `Token`: it is not a number. `Limit`: it does not fit in an `i64`.
    #[tactic(auto, unfolding(crate::specs::Literals::int))]
    pub fn read_int(&mut self) -> Result<i64, LangFault>
        ensures read { Gives OutOfMemory (λ n. (n, self.new.state)) result (int self.old.state) }
        ensures nesting { OnOk result (self.new.nesting ≡ self.old.nesting) }
    {
        if self.at("-") {
            self.advance()?;
            let number = self.read_number(1 << 63)?;
            return Ok(negated(number));
        }
        let number = self.read_number((1 << 63) - 1)?;
        Ok(signed(number))
    }

    /// Reads INT as a divisor. `Token`: it is not INT. `Limit`: it is 0 or does not fit in an `i64`.
    #[tactic(auto, unfolding(crate::specs::Literals::divisor))]
    pub fn read_divisor(&mut self) -> Result<i64, LangFault>
        ensures read { Gives OutOfMemory (λ n. (n, self.new.state)) result (divisor self.old.state) }
        ensures nesting { OnOk result (self.new.nesting ≡ self.old.nesting) }
    {
        let number = self.number_at((1 << 63) - 1)?;
        if number == 0 {
            return Err(LangFault::Limit {
                place: self.place(),
            });
        }
        self.advance()?;
        Ok(signed(number))
    }

    // Returns the value of the token, a text constant, without consuming it.
    #[tactic(auto, unfolding(crate::specs::Literals::text_at))]
    fn text_at(&self) -> Result<Text, LangFault>
        ensures { Gives OutOfMemory (λ t. t) result (text_at self.now.state) }
    {
        let place = self.place();
        if !self.kind().is_text() {
            return Err(LangFault::Token { place });
        }
        let bytes = text_bytes(self.alloc(), behind_first(self.token()))?;
        if bytes.len() > TEXT_LIMIT {
            return Err(LangFault::Limit { place });
        }
        Ok(Text::new(self.alloc(), String::from_utf8_lossy(self.alloc(), &bytes)?)?)
    }

    /// Reads a text constant and returns its value. `Token`: it is not one. `Limit`: the value is over `TEXT_LIMIT`
    /// bytes.
    #[tactic(auto, unfolding(crate::specs::Literals::text))]
    pub fn read_text(&mut self) -> Result<Text, LangFault>
        ensures read { Gives OutOfMemory (λ t. (t, self.new.state)) result (text self.old.state) }
        ensures nesting { OnOk result (self.new.nesting ≡ self.old.nesting) }
    {
        let text = self.text_at()?;
        self.advance()?;
        Ok(text)
    }
}
