//! The names of the ops without operands and of the relations of patterns. op.rt and pattern.rt read them; writing.rt
//! and text.rt write them.

use bb_code::{Bound, Calculation, Comparison, Logic, Op, Relation};

// The ops without operands.
const PLAIN: [(&str, Op); 24] = [
    ("Pop", Op::Pop),
    ("Add", Op::Calculate(Calculation::Add)),
    ("Sub", Op::Calculate(Calculation::Sub)),
    ("Mul", Op::Calculate(Calculation::Mul)),
    ("Min", Op::Calculate(Calculation::Min)),
    ("Max", Op::Calculate(Calculation::Max)),
    ("Lt", Op::Compare(Comparison::Lt)),
    ("Le", Op::Compare(Comparison::Le)),
    ("EqInt", Op::Compare(Comparison::EqInt)),
    ("EqText", Op::EqText),
    ("EqLabel", Op::EqLabel),
    ("EqUnit", Op::EqUnit),
    ("Not", Op::Not),
    ("And", Op::Combine(Logic::And)),
    ("Or", Op::Combine(Logic::Or)),
    ("MakeInterval", Op::MakeInterval),
    ("Low", Op::BoundOf(Bound::Low)),
    ("High", Op::BoundOf(Bound::High)),
    ("Size", Op::Size),
    ("Delete", Op::Delete),
    ("Done", Op::Done),
    ("Rate", Op::Rate),
    ("Decline", Op::Decline),
    ("Answer", Op::Answer),
];

// The relations of patterns to their operands.
const RELATIONS: [(&str, Relation); 5] = [
    ("within", Relation::Within),
    ("covers", Relation::Covers),
    ("overlaps", Relation::Overlaps),
    ("less", Relation::Less),
    ("more", Relation::More),
];

// The entry of a name in a table.
fn entry_of<T: Copy>(table: &[(&str, T)], name: &str) -> Option<T> {
    for (known, entry) in table {
        if *known == name {
            return Some(*entry);
        }
    }
    None
}

/// Returns the op without operands that has a name, if there is one.
pub(crate) fn plain_op(name: &str) -> Option<Op> {
    entry_of(&PLAIN, name)
}

/// Returns the relation that has a name, if there is one.
pub(crate) fn relation_of(name: &str) -> Option<Relation> {
    entry_of(&RELATIONS, name)
}

/// Returns the name of an op without operands, or `None` if the op has operands.
pub(crate) fn plain_name(op: Op) -> Option<&'static str> {
    for (name, known) in &PLAIN {
        if *known == op {
            return Some(*name);
        }
    }
    None
}

/// Returns the name of a relation.
pub(crate) fn relation_name(relation: Relation) -> &'static str {
    match relation {
        Relation::Within => "within",
        Relation::Covers => "covers",
        Relation::Overlaps => "overlaps",
        Relation::Less => "less",
        Relation::More => "more",
    }
}
