//! What the documents declare: the entries of a schema and of the initial units. `bb_schema` and `bb_board` read them.

/// What a schema's document declares, in document order. Only the form has been tested: a name may be any text, and may
/// be declared twice or not at all.
#[derive(Drop)]
pub struct Document {
    pub label_sets: Vec<LabelSetEntry>,
    pub classes: Vec<ClassEntry>,
    pub spaces: Vec<SpaceEntry>,
}

/// A set of labels.
pub struct LabelSetEntry {
    pub name: String,
    /// The labels, at least one.
    pub values: Vec<String>,
}

// By hand, so that proofs see a drop as one call, not one per part.
impl Drop for LabelSetEntry {
    fn drop(self) {
        let LabelSetEntry { name: _, values: _ } = self;
    }
}

/// A class, with the slots that it adds to its parent's slots.
pub struct ClassEntry {
    pub name: String,
    pub parent: Option<String>,
    pub slots: Vec<SlotEntry>,
    pub links: Vec<LinkEntry>,
}

// By hand, so that proofs see a drop as one call, not one per part.
impl Drop for ClassEntry {
    fn drop(self) {
        let ClassEntry {
            name: _,
            parent: _,
            slots: _,
            links: _,
        } = self;
    }
}

/// An ordinary slot of a class.
pub struct SlotEntry {
    pub name: String,
    pub default: DefaultEntry,
}

// By hand, so that proofs see a drop as one call, not one per part.
impl Drop for SlotEntry {
    fn drop(self) {
        let SlotEntry {
            name: _,
            default: _,
        } = self;
    }
}

/// The default of a slot, which implies the slot's kind. If a document gives none, it is 0, the empty text, `false` or
/// the interval from 0 to 0.
pub enum DefaultEntry {
    Int(i64),
    Text(String),
    Bool(bool),
    /// A label of the set `of`, or the set's first label if the document gives none.
    Label { of: String, default: Option<String> },
    /// An interval from the first number to the second, which is not less.
    Interval(i64, i64),
}

// By hand, so that proofs see a drop as one call, not one case per variant.
impl Drop for DefaultEntry {
    fn drop(self) {
        match self {
            DefaultEntry::Int(_) => {}
            DefaultEntry::Text(_) => {}
            DefaultEntry::Bool(_) => {}
            DefaultEntry::Label { of: _, default: _ } => {}
            DefaultEntry::Interval(_, _) => {}
        }
    }
}

/// A link slot of a class: its target class, whether it holds many units, its inverse slot, and whether a unit owns the
/// units in the slot, so that they are deleted with it.
pub struct LinkEntry {
    pub name: String,
    pub to: String,
    pub many: bool,
    pub inverse: String,
    /// `false` if the document leaves it out.
    pub owns: bool,
}

// By hand, so that proofs see a drop as one call, not one per part.
impl Drop for LinkEntry {
    fn drop(self) {
        let LinkEntry {
            name: _,
            to: _,
            many: _,
            inverse: _,
            owns: _,
        } = self;
    }
}

/// A space, with the classes that it admits.
pub struct SpaceEntry {
    pub name: String,
    pub classes: Vec<String>,
    pub dims: Vec<DimEntry>,
}

// By hand, so that proofs see a drop as one call, not one per part.
impl Drop for SpaceEntry {
    fn drop(self) {
        let SpaceEntry {
            name: _,
            classes: _,
            dims: _,
        } = self;
    }
}

/// A dimension of a space: `of` is the label set of an enumerated dimension, `None` for an ordered one.
pub struct DimEntry {
    pub name: String,
    pub of: Option<String>,
}

// By hand, so that proofs see a drop as one call, not one per part.
impl Drop for DimEntry {
    fn drop(self) {
        let DimEntry { name: _, of: _ } = self;
    }
}

/// What the document of the initial units declares, in document order. Only the form has been tested: a name may be any
/// text.
#[derive(Drop)]
pub struct UnitsDocument {
    pub units: Vec<UnitEntry>,
    pub links: Vec<FirstLinkEntry>,
    pub spaces: Vec<MemberEntry>,
}

/// An initial unit, with the name that its document uses for it.
pub struct UnitEntry {
    pub name: String,
    pub class: String,
    /// The given values, sorted by the bytes of the slot names. No name occurs twice.
    pub slots: Vec<GivenEntry>,
}

// By hand, so that proofs see a drop as one call, not one per part.
impl Drop for UnitEntry {
    fn drop(self) {
        let UnitEntry {
            name: _,
            class: _,
            slots: _,
        } = self;
    }
}

/// A value that an initial unit gives for a slot. The slot's name may be any text.
pub struct GivenEntry {
    pub slot: String,
    pub value: GivenValue,
}

// By hand, so that proofs see a drop as one call, not one per part.
impl Drop for GivenEntry {
    fn drop(self) {
        let GivenEntry { slot: _, value: _ } = self;
    }
}

/// A value that an initial unit gives, as in the JSON. Which slots it fits depends on the schema.
pub enum GivenValue {
    Int(i64),
    /// A text. For a label slot, it is the name of a label.
    Text(String),
    Bool(bool),
    /// An interval from the first number to the second, which is not less.
    Interval(i64, i64),
    /// Any other JSON. It fits no slot.
    Other,
}

// By hand, so that proofs see a drop as one call, not one case per variant.
impl Drop for GivenValue {
    fn drop(self) {
        match self {
            GivenValue::Int(_) => {}
            GivenValue::Text(_) => {}
            GivenValue::Bool(_) => {}
            GivenValue::Interval(_, _) => {}
            GivenValue::Other => {}
        }
    }
}

/// A link between initial units: a unit, a link slot of its class, and the unit that it points to. Units are named as
/// in the document.
pub struct FirstLinkEntry {
    pub from: String,
    pub slot: String,
    pub to: String,
}

// By hand, so that proofs see a drop as one call, not one per part.
impl Drop for FirstLinkEntry {
    fn drop(self) {
        let FirstLinkEntry {
            from: _,
            slot: _,
            to: _,
        } = self;
    }
}

/// An initial unit that is a member of a space. The unit is named as in the document.
pub struct MemberEntry {
    pub unit: String,
    pub space: String,
}

// By hand, so that proofs see a drop as one call, not one per part.
impl Drop for MemberEntry {
    fn drop(self) {
        let MemberEntry { unit: _, space: _ } = self;
    }
}
