//! The clause or class that a source is refused for: its line in a bundle, and its position among the source's clauses,
//! which locates it in a text.

use crate::reporting::Input;
use bb_basis::Memory;
use bb_diag_meaning::Clause;
use bb_diag_text::write_whole_line;
use bb_rules::{ClassPlace, ClauseList, ClausePlace, RuleFault};

/// Returns the line of a bundle with the clause or class that a source is refused for, if there is one; none unless
/// exactly one source has the name.
pub(crate) fn rule_line(name: &str, fault: RuleFault, bundle: &str) -> Option<u64> {
    let place = place_of(fault)?;
    if bundle.lines().filter(|line| is_header(line, name)).count() != 1 {
        return None;
    }
    line_of(bundle, name, place)
}

/// Appends the line of the bundle with the clause or class that a source is refused for, if there is one.
pub(crate) fn note_rule(
    text: &mut String,
    name: &str,
    fault: RuleFault,
    input: Input<'_>,
) -> Result<(), Memory> {
    let bundle = input.bundle;
    match rule_line(name, fault, bundle) {
        None => Ok(()),
        Some(line) => {
            input.section("%bundle", bundle).line(line).note(text, "")?;
            write_whole_line(text, bundle, line)
        }
    }
}

/// Returns the clause of a source that a fault concerns, if it concerns one.
pub(crate) fn clause_of(name: &str, fault: RuleFault) -> Option<Clause<'_>> {
    let Some(ClassPlace::Clause(place)) = place_of(fault) else {
        return None;
    };
    let reaction = match place.list {
        ClauseList::Triggers => "",
        ClauseList::Obviate => "obviate",
        ClauseList::Retrigger => "retrigger",
    };
    Some(Clause {
        source: name,
        reaction,
        index: place.index,
    })
}

fn place_of(fault: RuleFault) -> Option<ClassPlace> {
    match fault {
        RuleFault::Slot { place } | RuleFault::Space { place } => Some(ClassPlace::Clause(place)),
        RuleFault::Class { place } => Some(place),
        _ => None,
    }
}

// Returns whether a line begins the source with a name.
fn is_header(line: &str, name: &str) -> bool {
    let mut words = line.split(' ');
    words.next() == Some("source") && words.next() == Some(name)
}

// The state of a walk over the lines of a bundle.
#[derive(Drop)]
struct Walk {
    // Whether the walk is in the source with the name.
    is_there: bool,
    list: Option<ClauseList>,
    index: usize,
}

impl Walk {
    // Takes a line, and returns the class or clause in it, if there is one.
    fn step(&mut self, line: &str, name: &str) -> Option<ClassPlace> {
        match line.split(' ').next() {
            Some("source") => {
                self.is_there = is_header(line, name);
                self.begin(Some(ClauseList::Triggers), ClassPlace::Source)
            }
            Some("obviate") => self.begin(Some(ClauseList::Obviate), ClassPlace::Obviate),
            Some("retrigger") => self.begin(Some(ClauseList::Retrigger), ClassPlace::Retrigger),
            Some("when") => {
                let list = self.list?;
                let index = self.index;
                self.index = index.saturating_add(1);
                Some(ClassPlace::Clause(ClausePlace { list, index }))
            }
            _ => {
                self.list = None;
                None
            }
        }
    }

    // Begins a list of clauses with a line that names a class.
    fn begin(&mut self, list: Option<ClauseList>, place: ClassPlace) -> Option<ClassPlace> {
        self.list = list;
        self.index = 0;
        Some(place)
    }
}

// Returns the number, from 1, of the line with a class or clause in the source with a name.
fn line_of(bundle: &str, name: &str, place: ClassPlace) -> Option<u64> {
    let mut walk = Walk {
        is_there: false,
        list: None,
        index: 0,
    };
    let mut number = 0u64;
    for line in bundle.lines() {
        number = number.saturating_add(1);
        let found = walk.step(line, name);
        if walk.is_there && found == Some(place) {
            return Some(number);
        }
    }
    None
}
