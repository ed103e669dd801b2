//! Names and reserved words. Readers of the grammar call these functions if they expect a name.

ghost use Rattle.std.specs.Prelude.{◌≡◌, true, IfOk, OnOk};
ghost use Rattle.std.specs.List.{list_all};
ghost use Rattle.bb_basis.specs.Names.{is_name, is_name_byte, starts_with_letter};
ghost use Rattle.bb_basis.specs.Results.{Gives};
ghost use Rattle.bb_lang_tree.specs.declared.fault.LangFault.TheVariants.{Memory as OutOfMemory};
ghost use Rattle.bb_lang_tree.specs.Words.{is_reserved, member_at, name_at, member, name, declared};

use crate::fault::LangFault;
use crate::parser::Parser;
use crate::scan::is_name_byte;
use bb_basis::{NAME_LIMIT, Text};
use std::alloc::{AllocError, Global};

const RESERVED: &str =
    "source on when create delete update link unlink enter leave quiescence rate require obviate retrigger revalidate do native let if else with as for in find new set say decline answer where all and or not within covers overlaps less more is true false min max low high size it ev";

fn is_reserved(word: &[u8]) -> bool
    ensures { result ≡ is_reserved word.now }
{
    RESERVED
        .split(' ')
        .any(|reserved| word == reserved.as_bytes())
}

fn are_name_bytes(bytes: &[u8]) -> bool
    ensures { result ≡ list_all is_name_byte bytes.now }
{
    bytes.iter().all(|byte| is_name_byte(*byte))
}

fn starts_with_letter(bytes: &[u8]) -> bool
    ensures { result ≡ starts_with_letter bytes.now }
{
    match bytes {
        [] => false,
        [first, ..] => first.is_ascii_lowercase(),
    }
}

// Returns whether bytes spell a name.
#[tactic(auto, unfolding(bb_basis::specs::Names::is_name))]
fn is_name(bytes: &[u8]) -> bool
    ensures { result ≡ is_name bytes.now }
{
    starts_with_letter(bytes) && are_name_bytes(bytes) && bytes.len() <= NAME_LIMIT
}

// Makes a text of the bytes of a name.
fn name_text(alloc: Global, bytes: &[u8]) -> Result<Text, AllocError>
    requires { is_name bytes.now ≡ true }
    ensures { IfOk result (λ t. t ≡ bytes.now) }
{
    Text::new(alloc, String::from_utf8_lossy(alloc, bytes)?)
}

impl<'a> Parser<'a> {
    // Returns the token as a name after a `.`, where reserved words are names too.
    #[tactic(auto, unfolding(crate::specs::Words::member_at))]
    fn member_at(&self) -> Result<Text, LangFault>
        ensures { Gives OutOfMemory (λ t. t) result (member_at self.now.state) }
    {
        let place = self.place();
        if !self.kind().is_word() {
            return Err(LangFault::Token { place });
        }
        let token = self.token();
        if !is_name(token) {
            return Err(LangFault::Limit { place });
        }
        Ok(name_text(self.alloc(), token)?)
    }

    /// Returns the token as a name, without consuming it. `Token`: it is not a word, or a reserved one. `Limit`: it is
    /// too long.
    #[tactic(auto, unfolding(crate::specs::Words::name_at))]
    pub fn name_at(&self) -> Result<Text, LangFault>
        ensures { Gives OutOfMemory (λ t. t) result (name_at self.now.state) }
    {
        if is_reserved(self.token()) {
            return Err(LangFault::Token {
                place: self.place(),
            });
        }
        self.member_at()
    }

    /// Reads a name after a `.`; reserved words are names there too. `Token`: it is not a word. `Limit`: it is too
    /// long.
    #[tactic(auto, unfolding(crate::specs::Words::member))]
    pub fn read_member(&mut self) -> Result<Text, LangFault>
        ensures read { Gives OutOfMemory (λ t. (t, self.new.state)) result (member self.old.state) }
        ensures nesting { OnOk result (self.new.nesting ≡ self.old.nesting) }
    {
        let member = self.member_at()?;
        self.advance()?;
        Ok(member)
    }

    /// Reads NAME. `Token`: it is not a word, or a reserved one. `Limit`: it is too long.
    #[tactic(auto, unfolding(crate::specs::Words::name))]
    pub fn read_name(&mut self) -> Result<Text, LangFault>
        ensures read { Gives OutOfMemory (λ t. (t, self.new.state)) result (name self.old.state) }
        ensures nesting { OnOk result (self.new.nesting ≡ self.old.nesting) }
    {
        let name = self.name_at()?;
        self.advance()?;
        Ok(name)
    }

    /// Reads NAME and declares it: from now on it is in scope. `Twice`: it already was. Other faults: as `read_name`.
    #[tactic(auto, unfolding(crate::specs::Words::declared))]
    pub fn read_declared(&mut self) -> Result<Text, LangFault>
        ensures read { Gives OutOfMemory (λ t. (t, self.new.state)) result (declared self.old.state) }
        ensures nesting { OnOk result (self.new.nesting ≡ self.old.nesting) }
    {
        let name = self.name_at()?;
        if self.in_scope(name.as_str()) {
            return Err(LangFault::Twice {
                place: self.place(),
            });
        }
        self.declare(name.as_str())?;
        self.advance()?;
        Ok(name)
    }
}
