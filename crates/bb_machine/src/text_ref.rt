//! Texts on the stack. Slots, entries of the stack and notes share a text; moving it between them therefore copies no
//! bytes.

ghost use Rattle.std.specs.Prelude.{◌≡◌, IfOk};

use bb_basis::{Memory, Text};
use std::marker::Model;

// Where a text is stored.
#[derive(Drop)]
enum Storage<'a> {
    // In the code.
    Borrowed(&'a Text),
    // Shared with the slot that it was read from, because the slot may change.
    Shared(Text),
}

/// A text of the code, or one that is shared. Contracts see its bytes.
#[derive(Drop)]
pub struct TextRef<'a> {
    storage: Storage<'a>,
}

impl<'a> Model for TextRef<'a> {
    ghost use Rattle.std.specs.Prelude.{List, ℕ};
    ghost use Rattle.bb_machine.specs.TextRef.{text_of};

    ghost Value = { List ℕ };

    ghost view = { λ w. text_of w.storage };
}

impl<'a> TextRef<'a> {
    /// Returns a text of the code.
    pub fn borrowed(text: &'a Text) -> TextRef<'a>
        ensures { result ≡ text.now }
    {
        TextRef {
            storage: Storage::Borrowed(text),
        }
    }

    /// Returns a text shared with another owner.
    pub fn shared(text: &Text) -> Result<TextRef<'a>, Memory>
        ensures { IfOk result (λ t. t ≡ text.now) }
    {
        Ok(TextRef {
            storage: Storage::Shared(text.clone()?),
        })
    }

    /// Returns a copy that shares the text.
    pub fn share(&self) -> Result<TextRef<'a>, Memory>
        ensures { IfOk result (λ t. t ≡ self.now) }
    {
        Ok(TextRef {
            storage: match &self.storage {
                Storage::Borrowed(text) => Storage::Borrowed(text),
                Storage::Shared(text) => Storage::Shared(text.clone()?),
            },
        })
    }

    /// Returns the text.
    pub fn as_str(&self) -> &str
        ensures { result.now ≡ self.now }
    {
        match &self.storage {
            Storage::Borrowed(text) => text.as_str(),
            Storage::Shared(text) => text.as_str(),
        }
    }

    /// Returns the text in the form that slots and notes keep. It is shared, not copied.
    pub fn to_text(&self) -> Result<Text, Memory>
        ensures { IfOk result (λ text. text ≡ self.now) }
    {
        match &self.storage {
            Storage::Borrowed(text) => (*text).clone(),
            Storage::Shared(text) => text.clone(),
        }
    }
}
