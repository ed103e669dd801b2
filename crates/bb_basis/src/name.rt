//! The test for names. The readers of documents, bundles and texts apply it to every declared name.

ghost use Rattle.std.specs.Prelude.{◌≡◌};
ghost use Rattle.std.specs.List.{list_all};
ghost use Rattle.bb_basis.specs.Names.{is_name, is_name_byte, starts_with_letter};

/// The maximum length of a name, in bytes.
pub const NAME_LIMIT: usize = 31;

fn is_name_byte(byte: u8) -> bool
    ensures { result ≡ is_name_byte byte }
{
    byte.is_ascii_lowercase() || byte.is_ascii_digit() || byte == b'_'
}

fn starts_with_letter(bytes: &[u8]) -> bool
    ensures { result ≡ starts_with_letter bytes.now }
{
    match bytes {
        [] => false,
        [first, ..] => first.is_ascii_lowercase(),
    }
}

fn are_name_bytes(bytes: &[u8]) -> bool
    ensures { result ≡ list_all is_name_byte bytes.now }
{
    bytes.iter().all(|byte| is_name_byte(*byte))
}

/// Returns whether a text is a name: a letter from a to z, then such letters, digits and `_`, at most 31 bytes in all.
#[tactic(auto, unfolding(crate::specs::Names::is_name))]
pub fn is_name(text: &str) -> bool
    ensures { result ≡ is_name text.now }
{
    let bytes = text.as_bytes();
    starts_with_letter(bytes) && are_name_bytes(bytes) && bytes.len() <= NAME_LIMIT
}
