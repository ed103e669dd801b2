//! The names in scope, and what the locals hold. The walks over statements keep one.

ghost use Rattle.std.specs.Prelude.{◌≡◌, IfOk, OnOk};
ghost use Rattle.bb_compile_scope.specs.Scope.{name_of, local_of, kind_of, with_name, of_unit, of_event, begin_with};
ghost use Rattle.bb_compile_scope.specs.Scope.{mark_of, back_to};

use crate::local_kinds::LocalKinds;
use bb_basis::{Items, Text};
use bb_code::{Kind, LocalId};
use bb_lang_tree::Variable;
use bb_schema_classes::ClassId;
use bb_verify_effect::Part;
use std::alloc::{AllocError, Global};

/// A name in scope with its local.
#[derive(Drop)]
pub struct NamedLocal {
    pub name: Text,
    pub local: LocalId,
}

/// The names in scope, in the order of their declarations, and what the locals hold.
#[derive(Drop)]
pub struct Scope {
    pub names: Items<NamedLocal>,
    pub kinds: LocalKinds,
}

/// The former state of a scope, to return to.
#[derive(Drop)]
pub struct Mark {
    pub names: usize,
    pub kinds: LocalKinds,
}

/// Returns the text of a name.
pub fn name_of(variable: &Variable) -> &str
    ensures { result.now ≡ name_of variable.now }
{
    match variable {
        Variable::It => "it",
        Variable::Ev => "ev",
        Variable::Named(name) => name.as_str(),
    }
}

impl Scope {
    // Returns the scope at the start of a part with an activation's unit.
    fn of_unit(alloc: Global, class: ClassId) -> Result<Scope, AllocError>
        ensures { IfOk result (λ scope. scope ≡ of_unit class) }
    {
        let mut scope = Scope {
            names: Items::new(alloc),
            kinds: LocalKinds::new(),
        };
        scope.name_local(alloc, "it", 0, Kind::Old(class))?;
        Ok(scope)
    }

    // Returns the scope at the start of a part with an activation's unit and an event's.
    fn of_event(alloc: Global, class: ClassId, of: ClassId) -> Result<Scope, AllocError>
        ensures { IfOk result (λ scope. scope ≡ of_event class of) }
    {
        let mut scope = Scope::of_unit(alloc, class)?;
        scope.name_local(alloc, "ev", 1, Kind::Old(of))?;
        Ok(scope)
    }

    /// Returns the scope at the start of a part.
    pub fn of_part(alloc: Global, part: Part) -> Result<Scope, AllocError>
        ensures { IfOk result (λ scope. scope ≡ begin_with part) }
    {
        match part {
            Part::Require { class } => Scope::of_unit(alloc, class),
            Part::Obviate { class, of } => Scope::of_event(alloc, class, of),
            Part::Retrigger { class, of } => Scope::of_event(alloc, class, of),
            Part::Revalidate { class } => Scope::of_unit(alloc, class),
            Part::Do { class } => Scope::of_unit(alloc, class),
        }
    }

    /// Declares a name for a local, which holds a value of this kind.
    pub fn name_local(
        &mut self,
        alloc: Global,
        name: &str,
        local: LocalId,
        kind: Kind,
    ) -> Result<(), AllocError>
        ensures { OnOk result (self.new ≡ with_name name.now local kind self.old) }
    {
        let name = Text::from_str(alloc, name)?;
        self.names.push(NamedLocal { name, local })?;
        self.kinds.put(local, kind);
        Ok(())
    }

    /// Returns the local of a name, if it is in scope.
    pub fn local_of(&self, name: &str) -> Option<LocalId>
        ensures { result ≡ local_of self.now name.now }
    {
        for named in self.names.as_slice() {
            if named.name.as_str() == name {
                return Some(named.local);
            }
        }
        None
    }

    /// Returns what a name holds, if it is in scope.
    pub fn kind_of(&self, name: &str) -> Option<Kind>
        ensures { result ≡ kind_of self.now name.now }
    {
        Some(self.kinds.get(self.local_of(name)?))
    }

    /// Marks the current state of the scope.
    pub fn mark(&self) -> Mark
        ensures { result ≡ mark_of self.now }
    {
        Mark {
            names: self.names.len(),
            kinds: self.kinds.copied(),
        }
    }

    /// Removes the names that were declared since the mark, and frees their locals.
    pub fn leave(&mut self, mark: &Mark)
        ensures { self.new ≡ back_to mark.now self.old }
    {
        self.names.truncate(mark.names);
        self.kinds.leave(&mark.kinds);
    }
}
