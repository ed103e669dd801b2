//! Sources. bb_shell makes them from a bundle; the run (bb_run) asks which events they respond to, and executes their
//! codes.

ghost use Rattle.std.specs.Prelude.{◌≡◌, Err, IfOk, IfSome, Ok, Some};
ghost use Rattle.bb_basis.specs.Results.{Gives};
ghost use Rattle.bb_verify.specs.Accepted.{Checked as Accepted, IsSound};
ghost use Rattle.bb_code.specs.declared.flaw.Flaw.TheVariants.{Effect};
ghost use Rattle.bb_verify.specs.Part.{writes};
ghost use Rattle.bb_rules.specs.Source.{act_of, parts_fit, source_of};
ghost use Rattle.bb_rules.specs.Law.{AreAccepted, HasSoundCodes, IsMade, IsOf};
ghost use Rattle.bb_rules.specs.Questions.{IsQuestion};
ghost use Rattle.bb_rules.specs.proving.Steps.{reaction_with, source_with};

use crate::clauses::Clauses;
use crate::fault::RuleFault;
use crate::found::Found;
use crate::question::Question;
use bb_basis::Text;
use bb_bundle::{ActDraft, ReactionDraft, SourceDraft};
use bb_exec_lower::Lowered;
use bb_schema::{ClassId, Schema};
use std::alloc::Global;
use std::marker::Model;

/// What an activation of a source does.
pub enum Act {
    /// The source executes a code.
    Code(Lowered),
    /// The source calls a native of the host.
    Native,
}

// Written by hand, so that a proof meets one call when it is dropped, not each of its variants.
impl Drop for Act {
    fn drop(self) {
        match self {
            Act::Code(_) => {}
            Act::Native => {}
        }
    }
}

/// What a source does about each of its pending activations when certain events happen.
pub struct Reaction {
    /// The class of the units of the events.
    pub class: ClassId,
    /// The events that cause the reaction.
    pub clauses: Clauses,
    /// The code that is asked about each activation.
    pub code: Question,
}

// Written by hand, so that a proof meets one call when it is dropped, not each of its parts.
impl Drop for Reaction {
    fn drop(self) {
        let Reaction {
            class: _,
            clauses: _,
            code: _,
        } = self;
    }
}

/// The parts of a source.
pub struct SourceParts {
    pub name: Text,
    /// The class of the units that it works on.
    pub class: ClassId,
    /// The base rating of its activations, unless `require` gives one.
    pub rate: i64,
    /// The events that trigger it.
    pub triggers: Clauses,
    /// Decides whether a triggering event makes an activation, and its base rating.
    pub require: Option<Question>,
    /// The events that may obviate its pending activations.
    pub obviate: Option<Reaction>,
    /// The events that may give its pending activations another base rating.
    pub retrigger: Option<Reaction>,
    /// Decides whether a chosen activation may still act.
    pub revalidate: Option<Question>,
    /// What its activations do.
    pub act: Act,
}

// Written by hand, so that a proof meets one call when it is dropped, not each of its parts.
impl Drop for SourceParts {
    fn drop(self) {
        let SourceParts {
            name: _,
            class: _,
            rate: _,
            triggers: _,
            require: _,
            obviate: _,
            retrigger: _,
            revalidate: _,
            act: _,
        } = self;
    }
}

impl SourceParts {
    /// Returns the name and drops the rest.
    pub fn into_name(self) -> Text
        ensures { result ≡ self.name }
    {
        let SourceParts {
            name,
            class: _,
            rate: _,
            triggers: _,
            require: _,
            obviate: _,
            retrigger: _,
            revalidate: _,
            act: _,
        } = self;
        name
    }
}

/// A source whose names are looked up and whose codes are accepted: GBBopen's knowledge source. Contracts see it as its
/// parts. All parts come from one draft: only `Source::new` puts parts together.
#[derive(Drop)]
pub struct Source {
    parts: SourceParts,
}

impl Model for Source {
    ghost use Rattle.bb_rules.specs.Parts.{Source as Made};
    ghost use Rattle.bb_rules.specs.proving.Codes.{source_code};

    ghost Value = { Made };

    ghost coded = { source_code };

    ghost view = { λ s. s.parts };
}

impl Source {
    /// Makes a source of its draft. The fault is the first of these: `Class` if its class, or the class of a reaction,
    /// is unknown; `Part` if a code was accepted for another part or other classes; and, clause by clause, `Class` if
    /// the class is unknown or does not descend from the class of the source, or of the reaction, `Slot`, `Space`. The
    /// fault has its position: which of the three classes, or which clause of which list.
    pub fn new(
        alloc: Global,
        schema: &Schema,
        draft: SourceDraft<Lowered>,
    ) -> Result<Source, RuleFault>
        ensures made { Gives RuleFault.Memory (λ s. s) result (source_of schema.now draft) }
        ensures law { IfOk result (λ s. IsOf schema.now s) }
        ensures accepted { AreAccepted schema.now draft → IfOk result (λ s. IsMade schema.now s) }
    {
        let found = Found::of(alloc, schema, &draft)?;
        Ok(Source {
            parts: source_with(found, draft),
        })
    }

    /// Returns the parts of the source.
    pub fn parts(&self) -> &SourceParts
        ensures { result.now ≡ self.now }
    {
        &self.parts
    }

    /// Returns the parts of the source without copying them.
    pub fn into_parts(self) -> SourceParts
        ensures { result ≡ self }
    {
        self.parts
    }

    /// Exposes the invariant: each code was accepted under some schema, and codes that the source asks may not write.
    /// Does nothing.
    pub fn fits(&self)
        ensures { HasSoundCodes self.now }
    {
        question_fits(&self.parts.require);
        reaction_fits(&self.parts.obviate);
        reaction_fits(&self.parts.retrigger);
        question_fits(&self.parts.revalidate);
        act_fits(&self.parts.act);
    }
}

fn question_fits(question: &Option<Question>)
    ensures { (c : Accepted) → question.now ≡ Some c → IsQuestion c }
{
    if let Some(question) = question {
        // For the proof: the question's invariant.
        question.fits();
    }
}

fn reaction_fits(reaction: &Option<Reaction>)
    ensures { (r : Reaction) → reaction.now ≡ Some r → IsQuestion r.code }
{
    if let Some(reaction) = reaction {
        // For the proof: the code's invariant.
        reaction.code.fits();
    }
}

fn act_fits(act: &Act)
    ensures { (c : Accepted) → act.now ≡ Act.Code c → IsSound c }
{
    if let Act::Code(code) = act {
        // For the proof: the code's invariant.
        code.checked().fits();
    }
}

// Puts together the parts of a source from its draft and what the draft's names stand for.
fn source_with(found: Found, draft: SourceDraft<Lowered>) -> SourceParts
    requires { parts_fit found.classes draft ≡ Ok tt }
    ensures { result ≡ source_with found draft }
{
    let Found {
        classes,
        triggers,
        obviating,
        retriggering,
    } = found;
    let SourceDraft {
        header,
        mut parts,
        act,
    } = draft;
    SourceParts {
        name: header.name,
        class: classes.own,
        rate: header.rate,
        triggers,
        require: question_of(parts.require.take()),
        obviate: reaction_with(classes.obviated, obviating, parts.obviate.take()),
        retrigger: reaction_with(classes.retriggered, retriggering, parts.retrigger.take()),
        revalidate: question_of(parts.revalidate.take()),
        act: act_of(act),
    }
}

fn question_of(code: Option<Lowered>) -> Option<Question>
    requires { IfSome code (λ c. writes c.part ≡ Err Effect) }
    ensures { result ≡ code }
{
    Some(Question::new(code?))
}

fn reaction_with(
    class: Option<ClassId>,
    clauses: Option<Clauses>,
    draft: Option<ReactionDraft<Lowered>>,
) -> Option<Reaction>
    requires { IfSome class (λ _. IfSome draft (λ d. writes d.code.part ≡ Err Effect)) }
    ensures { result ≡ reaction_with class clauses draft }
{
    Some(Reaction {
        class: class?,
        clauses: clauses?,
        code: Question::new(draft?.code),
    })
}

fn act_of(draft: ActDraft<Lowered>) -> Act
    ensures { result ≡ act_of draft }
{
    match draft {
        ActDraft::Do(code) => Act::Code(code),
        ActDraft::Native => Act::Native,
    }
}
