//! The code emitted so far for a part. Everything that emits code writes to a buffer.

ghost use Rattle.std.specs.Prelude.{◌≡◌, IfOk, [], length, None};
ghost use Rattle.bb_basis.specs.Results.{Gives};
ghost use Rattle.bb_compile_scope.specs.declared.fault.CompileFault.TheVariants.{Memory as OutOfMemory};
ghost use Rattle.bb_compile_buffer.specs.Buffers.{noted, due, settled, known, put, put_value, aim, text_index, text_at};
ghost use Rattle.bb_compile_buffer.specs.Buffers.{asked_query};
ghost use Rattle.bb_compile_buffer.specs.Buffers.{begun_loop, kept, labelled, with_kinds, leave, take_local, declare, met};
ghost use Rattle.bb_compile_buffer.specs.Finish.{empty_buffer};

use crate::label::Label;
use crate::loops::Loops;
use crate::ops::Ops;
use crate::texts::Texts;
use bb_basis::{Items, Text};
use bb_code::{Kind, LOOP_LIMIT, LocalId, Op, QUERY_LIMIT, Query, TEXT_COUNT_LIMIT};
use bb_compile_scope::{CompileFault, LocalKinds, Place, Scope, TextFlaw, lowest};
use bb_verify_effect::{Part, is_same_plain};
use std::alloc::{AllocError, Global};
use std::mem;

/// The code emitted so far for a part, the names in scope here, and the lowest flaw of this statement.
#[derive(Drop)]
pub struct Buffer {
    /// The location of the part's first token.
    pub start: Place,
    pub ops: Ops,
    pub texts: Texts,
    pub queries: Items<Query>,
    pub loops: Loops,
    /// The labels except the last one, which another at the same index may replace.
    pub labels: Items<Label>,
    pub last: Option<Label>,
    pub scope: Scope,
    /// The number of locals.
    pub locals: u8,
    pub flaw: Option<TextFlaw>,
}

// Keeps the last label, unless another at the same index replaces it.
#[tactic(auto, unfolding(crate::specs::Buffers::kept))]
fn keep(labels: &mut Items<Label>, last: Option<Label>, place: u16) -> Result<(), AllocError>
    ensures { IfOk result (λ _. labels.new ≡ kept labels.old last place) }
{
    let Some(last) = last else {
        return Ok(());
    };
    if last.place == place {
        return Ok(());
    }
    labels.push(last)
}

impl Buffer {
    /// Creates an empty buffer for a part.
    pub fn new(alloc: Global, part: Part, start: Place) -> Result<Buffer, AllocError>
        ensures { IfOk result (λ buffer. buffer ≡ empty_buffer part start) }
    {
        let scope = Scope::of_part(alloc, part)?;
        Ok(Buffer {
            start,
            ops: Ops::new(alloc),
            texts: Texts::new(alloc),
            queries: Items::new(alloc),
            loops: Loops::new(alloc),
            labels: Items::new(alloc),
            last: None,
            scope,
            locals: part.unit_count(),
            flaw: None,
        })
    }

    /// Returns the allocator of the buffer. Callers that emit to it allocate from it too.
    pub fn alloc(&self) -> Global {
        self.texts.alloc()
    }

    // ---- flaws

    /// Notes a flaw of this statement. Of several, the lowest is kept.
    pub fn note(&mut self, flaw: TextFlaw)
        ensures { self.new ≡ noted flaw self.old }
    {
        self.flaw = Some(lowest(self.flaw, flaw));
    }

    /// Notes `Kind` if the kind of a value is known and is not `wanted`.
    #[tactic(auto, unfolding(crate::specs::Buffers::due))]
    pub fn due(&mut self, kind: Option<Kind>, wanted: Kind)
        ensures { self.new ≡ due kind wanted self.old }
    {
        let Some(kind) = kind else {
            return;
        };
        if is_same_plain(kind, wanted) {
            return;
        }
        self.note(TextFlaw::Kind);
    }

    /// Notes `Unknown` if a name has no meaning.
    pub fn known(&mut self, meant: Option<u16>)
        ensures { self.new ≡ known meant self.old }
    {
        if meant.is_some() {
            return;
        }
        self.note(TextFlaw::Unknown);
    }

    /// Refuses the statement at a location if it has a flaw.
    pub fn settle(&self, place: Place) -> Result<(), CompileFault>
        ensures { result ≡ settled place self.now }
    {
        match self.flaw {
            None => Ok(()),
            Some(flaw) => Err(CompileFault::At { flaw, place }),
        }
    }

    // ---- ops

    /// Appends an op. `Limit`, at the part: there are `OP_LIMIT` ops already.
    #[tactic(auto, unfolding(crate::specs::Buffers::put))]
    pub fn put(&mut self, op: Op) -> Result<(), CompileFault>
        ensures { Gives OutOfMemory (λ _. self.new) result (put op self.old) }
    {
        if self.ops.is_full() {
            let place = self.start;
            return Err(CompileFault::At {
                flaw: TextFlaw::Limit,
                place,
            });
        }
        self.ops.push(op)?;
        Ok(())
    }

    /// Appends an op that pushes a value, and notes `Limit` if `room`, the number of values that fit on the stack, is
    /// 0. `Limit`, at the part: as `put`.
    #[tactic(auto, unfolding(crate::specs::Buffers::put_value))]
    pub fn put_value(&mut self, op: Op, room: usize) -> Result<(), CompileFault>
        ensures { Gives OutOfMemory (λ _. self.new) result (put_value op room self.old) }
    {
        if room == 0 {
            self.note(TextFlaw::Limit);
            return self.put(op);
        }
        self.put(op)
    }

    /// Sets the target of the op at an index to the index of the next op.
    pub fn aim(&mut self, at: u16)
        ensures { self.new ≡ aim at self.old }
    {
        self.ops.aim(at);
    }

    // ---- texts, queries and loops

    /// Returns the index of a text, which is added if it is new. `Limit`, at the part: there are `TEXT_COUNT_LIMIT`
    /// texts already.
    #[tactic(auto, unfolding(crate::specs::Buffers::text_index))]
    pub fn text(&mut self, text: &str) -> Result<u16, CompileFault>
        ensures { Gives OutOfMemory (λ index. (index, self.new)) result (text_index text.now self.old) }
    {
        if let Some(index) = self.texts.index_of(text) {
            return Ok(index);
        }
        let index = self.texts.len();
        if index >= TEXT_COUNT_LIMIT {
            let place = self.start;
            return Err(CompileFault::At {
                flaw: TextFlaw::Limit,
                place,
            });
        }
        self.texts.push(text)?;
        Ok(index)
    }

    /// Appends a query and returns its index. `Limit`, at the part: there are `QUERY_LIMIT` queries already.
    #[tactic(auto, unfolding(crate::specs::Buffers::asked_query))]
    pub fn ask(&mut self, query: Query) -> Result<u16, CompileFault>
        ensures { Gives OutOfMemory (λ index. (index, self.new)) result (asked_query query self.old) }
    {
        let index = self.queries.len();
        if index >= QUERY_LIMIT as usize {
            let place = self.start;
            return Err(CompileFault::At {
                flaw: TextFlaw::Limit,
                place,
            });
        }
        self.queries.push(query)?;
        Ok(index as u16)
    }

    /// Begins a loop here and returns its index. `Limit`, at the part: there are `LOOP_LIMIT` loops already.
    #[tactic(auto, unfolding(crate::specs::Buffers::begun_loop))]
    pub fn begin_loop(&mut self) -> Result<usize, CompileFault>
        ensures { Gives OutOfMemory (λ index. (index, self.new)) result (begun_loop self.old) }
    {
        let index = self.loops.len();
        if index >= LOOP_LIMIT as usize {
            let place = self.start;
            return Err(CompileFault::At {
                flaw: TextFlaw::Limit,
                place,
            });
        }
        let head = self.ops.here();
        self.loops.begin(head)?;
        Ok(index)
    }

    // ---- labels

    /// Puts a label at the index of the next op. Of several labels at one index, the last one is kept.
    #[tactic(auto, unfolding(crate::specs::Buffers::labelled))]
    pub fn label(&mut self) -> Result<(), AllocError>
        ensures { IfOk result (λ _. self.new ≡ labelled self.old) }
    {
        let place = self.ops.here();
        let kinds = self.scope.kinds.copied();
        let last = mem::replace(&mut self.last, Some(Label { place, kinds }));
        keep(&mut self.labels, last, place)
    }

    // ---- names

    /// Takes the lowest free local, which holds a value of this kind from now on. `Limit`, at the part: no local is
    /// free.
    #[tactic(auto, unfolding(crate::specs::Buffers::take_local))]
    pub fn take_local(&mut self, kind: Kind) -> Result<LocalId, CompileFault>
        ensures { Gives OutOfMemory (λ local. (local, self.new)) result (take_local kind self.old) }
    {
        let Some(local) = self.scope.kinds.free() else {
            let place = self.start;
            return Err(CompileFault::At {
                flaw: TextFlaw::Limit,
                place,
            });
        };
        self.scope.kinds.put(local, kind);
        self.locals = self.locals.max(local + 1);
        Ok(local)
    }

    /// Declares a name for the value on the stack, which has this kind, and stores the value in a free local. `Limit`,
    /// at the part: no local is free, or as `put`.
    #[tactic(auto, unfolding(crate::specs::Buffers::declare))]
    pub fn declare(&mut self, name: &Text, kind: Kind) -> Result<(), CompileFault>
        ensures { Gives OutOfMemory (λ _. self.new) result (declare name.now kind self.old) }
    {
        let local = self.take_local(kind)?;
        let alloc = self.alloc();
        self.scope.name_local(alloc, name.as_str(), local, kind)?;
        self.put(Op::Store(local))
    }

    /// Merges this branch with another, after which the locals hold `other`. A branch that has ended does not count.
    #[tactic(auto, unfolding(crate::specs::Buffers::met))]
    pub fn meet(&mut self, ended: bool, other: LocalKinds, other_ended: bool)
        ensures { self.new ≡ met ended other other_ended self.old }
    {
        if ended {
            self.scope.kinds = other;
            return;
        }
        if other_ended {
            return;
        }
        self.scope.kinds.meet(&other);
    }
}
