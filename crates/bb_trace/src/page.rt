//! The page: text of a trace that is not written yet. The run (bb_run) adds segments to it and has it written.

ghost use Rattle.std.specs.Prelude.{◌≡◌, ◌<◌, ◌++◌, [], false, take, OnErr, OnOk, length};
ghost use Rattle.bb_trace.specs.TraceText.{segment_text};
ghost use Rattle.bb_trace.specs.Page.{Flushes, Spills, stopped_by_write};

use crate::halt::Halt;
use crate::line::add_note;
use crate::note::Note;
use crate::output::{Out, put_all};
use bb_run_plan::Plan;
use std::alloc::{AllocError, Global};
use std::marker::Model;

/// A page is written once it has this length.
pub const PAGE_LIMIT: usize = 65_536;

// The work after which a page of any length is written, in steps of codes, so that a trace can be followed live.
const WORK_LIMIT: u64 = 1 << 20;

// The work that a segment counts for besides the steps of its execution, so that a page is written after a few hundred
// segments at most.
const SEGMENT_WORK: u64 = 1 << 12;

/// Text that is not written yet.
pub struct Page {
    alloc: Global,
    text: Vec<u8>,
    // The line being made: only whole lines are appended to the text.
    line: String,
    // The work since the page was last written.
    work: u64,
}

// By hand: proofs then meet one call per drop, not one per part.
impl Drop for Page {
    fn drop(self) {
        let Page {
            alloc: _,
            text: _,
            line: _,
            work: _,
        } = self;
    }
}

impl Model for Page {
    ghost use Rattle.std.specs.Prelude.{List, ℕ};

    ghost Value = { List ℕ };

    ghost view = { λ p. p.text.items };
}

impl Page {
    /// Creates an empty page. Allocates nothing.
    pub fn new(alloc: Global) -> Page
        ensures { result ≡ [] }
    {
        Page {
            alloc,
            text: Vec::new(alloc),
            line: String::new(alloc),
            work: 0,
        }
    }

    /// Returns the allocator of the page. Callers that add segments allocate from it too.
    pub fn alloc(&self) -> Global {
        self.alloc
    }

    /// Appends the text of a segment. An error appends nothing.
    pub fn add_segment(&mut self, plan: &Plan, notes: &[Note]) -> Result<(), AllocError>
        ensures added { OnOk result (self.new ≡ self.old ++ segment_text plan.now notes.now) }
        ensures err { OnErr result (self.new ≡ self.old) }
    {
        let whole = self.text.len();
        if add_notes(self.alloc, &mut self.line, &mut self.text, plan, notes).is_err() {
            self.text.truncate(whole);
            return Err(AllocError);
        }
        self.work = self.work.saturating_add(work_of(notes));
        Ok(())
    }

    /// Writes the page if it has reached `PAGE_LIMIT`, or if much was done since it was last written. On success it is
    /// then shorter than `PAGE_LIMIT`. `Write`: the output failed.
    pub fn spill<O: Out>(&mut self, out: &mut O) -> Result<(), Halt>
        requires { O.has_failed out.old ≡ false }
        ensures written { Spills (O.taken out.old) (O.taken out.new) self.old self.new result }
        ensures short { OnOk result (length self.new < PAGE_LIMIT) }
        ensures failed { O.has_failed out.new ≡ stopped_by_write result }
    {
        if self.text.len() < PAGE_LIMIT && self.work < WORK_LIMIT {
            return Ok(());
        }
        self.flush(out)
    }

    /// Writes the page and empties it. `Write`: the output failed, after taking a prefix of the page.
    pub fn flush<O: Out>(&mut self, out: &mut O) -> Result<(), Halt>
        requires { O.has_failed out.old ≡ false }
        ensures written { Flushes (O.taken out.old) (O.taken out.new) self.old self.new result }
        ensures failed { O.has_failed out.new ≡ stopped_by_write result }
    {
        self.work = 0;
        if !put_all(out, self.text.as_slice()) {
            return Err(Halt::Write);
        }
        self.text.clear();
        Ok(())
    }
}

// The work of a segment, by its last note: the note of an execution's end comes last.
fn work_of(notes: &[Note]) -> u64 {
    match notes.last() {
        Some(Note::Ended { steps, .. }) => SEGMENT_WORK.saturating_add(
            (*steps).min(u128::from(WORK_LIMIT)) as u64,
        ),
        _ => SEGMENT_WORK,
    }
}

// Appends a line for each note. After an error the text still begins with its old content.
fn add_notes(
    alloc: Global,
    line: &mut String,
    text: &mut Vec<u8>,
    plan: &Plan,
    notes: &[Note],
) -> Result<(), AllocError>
    ensures added { OnOk result (text.new.items ≡ text.old.items ++ segment_text plan.now notes.now) }
    ensures err { OnErr result (take (length text.old.items) text.new.items ≡ text.old.items) }
{
    for note in notes {
        line.clear();
        add_note(alloc, line, plan, note)?;
        text.extend_from_slice(line.as_bytes())?;
    }
    Ok(())
}
