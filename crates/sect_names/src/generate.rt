//! What the statements of a program need of themselves.

ghost use Rattle.std.specs.Prelude.{◌≡◌, ◌↔◌, [], ◌∷◌, Some, IfNone, IfSome};
ghost use Rattle.sect_names.specs.{declared.lock.Lock.{Lock}, Schemes.{guard_of}};
ghost use Rattle.sect_names.specs.{Carrying.{Accesses, Makes, Generated}, Needed.{end_locks}};

use crate::lock::{Effect, Lock, Right};
use crate::path::Path;
use crate::scheme::Scheme;
use crate::variables::{locked_for, variable_of};
use sect_front::Locking;
use sect_points::Variable;
use sect_types::{Action, Label};
use std::alloc::Global;

impl Scheme {
    /// The lock that a node of the graph of a thread's section needs of itself, if any: a load that to read its object,
    /// a store that to write it, and a `new` the right to make objects of its class; where the record has a guard, the
    /// lock of the guard in its place. An access through what is always null needs none.
    pub fn generate(&self, alloc: Global, thread: u16, label: Label) -> Option<Lock>
        ensures { (lock : Lock) → (result ≡ Some lock) ↔ Generated self.now thread label lock }
    {
        let Label::Act(action) = label else {
            return None;
        };
        match action {
            Action::Load(_, base, field) => {
                self.access(alloc, variable_of(thread, base), field.of, Effect::Read)
            }
            Action::Store(base, field, _) => {
                self.access(alloc, variable_of(thread, base), field.of, Effect::Write)
            }
            Action::New(_, of, site) => self.making(alloc, of, site),
            Action::Assign(_, _) | Action::Compute(_, _, _, _) | Action::Print(_) => None,
        }
    }

    /// The lock for an access to the object of a variable, which is one of this record.
    fn access(&self, alloc: Global, variable: Variable, of: u16, effect: Effect) -> Option<Lock>
        ensures { (lock : Lock) → (result ≡ Some lock) ↔ Accesses self.now variable of effect lock }
    {
        match self.class_of_variable(variable) {
            None => None,
            Some(_) => {
                let locked = locked_for(self.guards().guard(of), variable);
                Some(Lock::Path(Path::new(alloc, locked), effect))
            }
        }
    }

    /// The lock for making an object of this record at a site.
    fn making(&self, alloc: Global, of: u16, site: u16) -> Option<Lock>
        ensures { (lock : Lock) → (result ≡ Some lock) ↔ Makes self.now (guard_of self.now.guards of) site lock }
    {
        match self.guards().guard(of) {
            Some(guard) => {
                Some(Lock::Path(Path::new(alloc, Variable::Global(guard)), Effect::Write))
            }
            None => match self.classes().numbers().get(site as usize) {
                None => None,
                Some(class) => Some(Lock::Class(*class, Right::Make)),
            },
        }
    }
}

/// What the end of a section generates: the lock on all where the section takes that, else nothing.
pub fn end_lock(locking: Locking) -> Option<Lock>
    ensures none { IfNone result (end_locks locking ≡ []) }
    ensures some { IfSome result (λ lock. end_locks locking ≡ lock ∷ []) }
{
    match locking {
        Locking::Inferred => None,
        Locking::All => Some(Lock::All),
    }
}
