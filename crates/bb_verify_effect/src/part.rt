//! The parts of a source. Each part has its own code, which ends as the part has to.

ghost use Rattle.std.specs.Prelude.{◌≡◌, length};
ghost use Rattle.bb_verify_effect.specs.Part.{units_of, part_word, writes, ends_done, ends_rated, ends_answered};

use bb_code::Flaw;
use bb_schema_classes::ClassId;

/// The part of a source that a code is for. `class`: the class of the activation's unit; `of`: of the event's unit.
#[derive(Clone, Copy, Debug, PartialEq, Eq)]
pub enum Part {
    /// Decides whether an activation is made, and its rating.
    Require { class: ClassId },
    /// Decides whether an event makes an activation unnecessary.
    Obviate { class: ClassId, of: ClassId },
    /// Decides whether an event gives an activation another rating, and which one.
    Retrigger { class: ClassId, of: ClassId },
    /// Decides whether a chosen activation is still of use.
    Revalidate { class: ClassId },
    /// The action of an activation. Only this part may change the blackboard.
    Do { class: ClassId },
}

impl Part {
    /// Returns the number of units that the part starts with, in its first locals.
    pub fn unit_count(self) -> u8
        ensures { result ≡ length (units_of self) }
    {
        match self {
            Part::Obviate { class: _, of: _ } => 2,
            Part::Retrigger { class: _, of: _ } => 2,
            _ => 1,
        }
    }

    /// Returns the name of the part in refusals.
    pub fn word(self) -> &'static str
        ensures { result.now ≡ part_word self }
    {
        match self {
            Part::Require { class: _ } => "require",
            Part::Obviate { class: _, of: _ } => "obviate",
            Part::Retrigger { class: _, of: _ } => "retrigger",
            Part::Revalidate { class: _ } => "revalidate",
            Part::Do { class: _ } => "do",
        }
    }

    /// Checks that the part may change the blackboard. `Flaw::Effect`: it may not.
    pub fn writes(self) -> Result<(), Flaw>
        ensures { result ≡ writes self }
    {
        match self {
            Part::Do { class: _ } => Ok(()),
            _ => Err(Flaw::Effect),
        }
    }

    /// Checks that the part ends without an answer. `Flaw::End`: it does not.
    pub fn ends_done(self) -> Result<(), Flaw>
        ensures { result ≡ ends_done self }
    {
        match self {
            Part::Do { class: _ } => Ok(()),
            _ => Err(Flaw::End),
        }
    }

    /// Checks that the part ends with a rating, or declines to give one. `Flaw::End`: it does not.
    pub fn ends_rated(self) -> Result<(), Flaw>
        ensures { result ≡ ends_rated self }
    {
        match self {
            Part::Require { class: _ } => Ok(()),
            Part::Retrigger { class: _, of: _ } => Ok(()),
            _ => Err(Flaw::End),
        }
    }

    /// Checks that the part ends with yes or no. `Flaw::End`: it does not.
    pub fn ends_answered(self) -> Result<(), Flaw>
        ensures { result ≡ ends_answered self }
    {
        match self {
            Part::Obviate { class: _, of: _ } => Ok(()),
            Part::Revalidate { class: _ } => Ok(()),
            _ => Err(Flaw::End),
        }
    }
}
