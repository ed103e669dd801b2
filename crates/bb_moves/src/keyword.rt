//! The kind of a line, by its first word. reading.rt distinguishes lines by it.

ghost use Rattle.std.specs.Prelude.{◌≡◌};
ghost use Rattle.bb_moves.specs.Keywords.{ask_word_of, keyword_of};

/// The kind of a line.
#[derive(Clone, Copy)]
pub(crate) enum Keyword {
    /// `turn`
    Turn,
    /// `advance N`
    Advance,
    /// `post` or `answer`
    Gather(Gathering),
    /// `end`
    End,
    /// An ask.
    Ask(AskWord),
}

/// What asks are gathered for, until their `end`.
#[derive(Clone, Copy, PartialEq)]
pub(crate) enum Gathering {
    /// `post`
    Post,
    /// `answer`
    Answer,
}

/// Which ask a line is.
#[derive(Clone, Copy)]
pub(crate) enum AskWord {
    /// `new CLASS`
    New,
    /// `delete U`
    Delete,
    /// `set U SLOT VALUE`
    Set,
    /// `link U SLOT U`
    Link,
    /// `unlink U SLOT U`
    Unlink,
    /// `enter U SPACE`
    Enter,
    /// `leave U SPACE`
    Leave,
    /// `say TEXT`
    Say,
}

#[tactic(auto, unfolding(crate::specs::Keywords::ask_word_of))]
fn ask_word_of(word: &str) -> Option<AskWord>
    ensures { result ≡ ask_word_of word.now }
{
    if word == "new" {
        return Some(AskWord::New);
    }
    if word == "delete" {
        return Some(AskWord::Delete);
    }
    if word == "set" {
        return Some(AskWord::Set);
    }
    if word == "link" {
        return Some(AskWord::Link);
    }
    if word == "unlink" {
        return Some(AskWord::Unlink);
    }
    if word == "enter" {
        return Some(AskWord::Enter);
    }
    if word == "leave" {
        return Some(AskWord::Leave);
    }
    if word == "say" {
        return Some(AskWord::Say);
    }
    None
}

/// Returns the kind of a line that begins with a word.
#[tactic(auto, unfolding(crate::specs::Keywords::keyword_of))]
pub(crate) fn keyword_of(word: &str) -> Option<Keyword>
    ensures { result ≡ keyword_of word.now }
{
    if word == "turn" {
        return Some(Keyword::Turn);
    }
    if word == "advance" {
        return Some(Keyword::Advance);
    }
    if word == "post" {
        return Some(Keyword::Gather(Gathering::Post));
    }
    if word == "answer" {
        return Some(Keyword::Gather(Gathering::Answer));
    }
    if word == "end" {
        return Some(Keyword::End);
    }
    let ask = ask_word_of(word)?;
    Some(Keyword::Ask(ask))
}
