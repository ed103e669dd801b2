//! The roles of the natives in asking.rt. Definitions name them; they are therefore built without tests too.

/// What an asker asks for.
#[derive(Clone, Copy, Debug, PartialEq, Eq)]
pub enum Role {
    /// One ask for each reason to refuse an ask, and then two that are applied.
    EachRefusal,
    /// The asker asks to delete its unit, and then to set a slot of it.
    DeletesFirst,
    /// The asker asks for two units.
    CreatesTwo,
    /// The asker asks to say its text.
    Says,
    /// The asker returns that memory ran out.
    HasNoMemory,
}
