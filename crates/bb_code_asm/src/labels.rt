//! The labels of a text. Operands that are op indexes can be labels.

use crate::fault::{AsmFault, Slip, StatementFault};
use crate::statement::Statement;
use bb_code::Place;
use std::alloc::{AllocError, Global};
use std::collections::BTreeMap;

/// The op indexes that have labels.
#[derive(Drop)]
pub(crate) struct Labels {
    alloc: Global,
    places: BTreeMap<String, Place>,
}

// Whether a label consists of a letter or `_`, and then letters, digits and `_`.
fn is_label(name: &str) -> bool {
    let first = name.bytes().next().unwrap_or(b'0');
    !first.is_ascii_digit() && name.bytes().all(|b| b.is_ascii_alphanumeric() || b == b'_')
}

impl Labels {
    /// Collects the labels before the ops of some statements.
    pub fn of(alloc: Global, statements: &[Statement<'_>]) -> Result<Labels, AsmFault> {
        let mut labels = Labels {
            alloc,
            places: BTreeMap::new(alloc),
        };
        let mut place: Place = 0;
        for statement in statements {
            if let Some(name) = statement.label {
                labels
                    .add(name, place)
                    .map_err(|halt| halt.at(statement.line))?;
            }
            if statement.is_op() {
                place = place.saturating_add(1);
            }
        }
        Ok(labels)
    }

    fn add(&mut self, name: &str, place: Place) -> Result<(), StatementFault> {
        if !is_label(name) || self.places.contains_key(name) {
            return Err(StatementFault::Slip(Slip::Label));
        }
        let name = String::from_str(self.alloc, name)?;
        self.places.insert(name, place)?;
        Ok(())
    }

    /// Returns the op index that a word names by its number or its label.
    pub fn place(&self, word: &str) -> Result<Place, Slip> {
        match word.parse::<Place>() {
            Ok(place) => Ok(place),
            Err(_) => self.places.get(word).copied().ok_or(Slip::Place),
        }
    }
}
