//! The codes of a source, part by part, for the warnings, the table of costs, `most_steps` and `creates`.

ghost use Rattle.std.specs.Prelude.{◌≡◌, map, option_map};
ghost use Rattle.bb_rules.specs.Codes.{act_code, codes_of};

use crate::question::Question;
use crate::source::{Act, Reaction, Source};
use bb_verify::Checked;

/// Returns the code of a question, if there is one.
pub(crate) fn asked(question: &Option<Question>) -> Option<&Checked>
    ensures { option_map (λ c. c.now) result ≡ question.now }
{
    match question {
        None => None,
        Some(question) => Some(question.checked()),
    }
}

/// Returns the code of a reaction, if there is one.
pub(crate) fn reacting(reaction: &Option<Reaction>) -> Option<&Checked>
    ensures { option_map (λ c. c.now) result ≡ option_map (λ r. r.code) reaction.now }
{
    match reaction {
        None => None,
        Some(reaction) => Some(reaction.code.checked()),
    }
}

/// Returns the code of an act, if it has one.
pub(crate) fn acting(act: &Act) -> Option<&Checked>
    ensures { option_map (λ c. c.now) result ≡ act_code act.now }
{
    match act {
        Act::Code(lowered) => Some(lowered.checked()),
        Act::Native => None,
    }
}

impl Source {
    /// Returns the codes of require, obviate, retrigger, revalidate and do, each if the source has it.
    pub fn codes(&self) -> [Option<&Checked>; 5]
        ensures { map (option_map (λ c. c.now)) result ≡ codes_of self.now }
    {
        let parts = self.parts();
        [
            asked(&parts.require),
            reacting(&parts.obviate),
            reacting(&parts.retrigger),
            asked(&parts.revalidate),
            acting(&parts.act),
        ]
    }
}
