//! The kinds of slots, as reported to a host.

/// What a slot can hold.
#[derive(Clone, Copy, Debug, PartialEq, Eq)]
pub enum SlotKind {
    Int,
    Text,
    Bool,
    /// A label of a set.
    Label,
    Interval,
    /// Units that are linked by the slot.
    Link,
}
