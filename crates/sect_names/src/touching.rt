//! Paths and locks that a statement leaves alone.

ghost use Rattle.std.specs.Prelude.{◌≡◌, ◌↔◌, ℕ, IsTrue};
ghost use Rattle.sect_names.specs.{declared.lock.Lock.{Lock}, Schemes.{SchemeView}, Locks.{IsLockOf}};
ghost use Rattle.sect_names.specs.{Carrying.{CarriedBack}, Touching.{IsOther, LeavesOthers}};
ghost use Rattle.sect_types.specs.declared.expansion.action.Label.{Label as ALabel};

use crate::lock::Lock;
use crate::path::Path;
use sect_points::Variable;
use sect_types::{Action, Field, Label};

/// What a node's statement may change of what paths denote: of those that begin with the variable to which it gives a
/// value, or of those that follow the field that it writes. It is found once for many locks.
#[derive(Clone, Copy)]
pub enum Change {
    Nothing,
    Base(Variable),
    Field(Field),
}

impl Change {
    /// What a node's statement may change.
    pub fn of(thread: u16, label: &Label) -> Change
        ensures { LeavesOthers thread label.now result }
    {
        let Label::Act(action) = *label else {
            return Change::Nothing;
        };
        match action {
            Action::Assign(target, _) => Change::Base(Variable::Local(thread, target)),
            Action::New(target, _, _) => Change::Base(Variable::Local(thread, target)),
            Action::Load(target, _, _) => Change::Base(Variable::Local(thread, target)),
            Action::Store(_, field, _) => Change::Field(field),
            Action::Compute(_, _, _, _) | Action::Print(_) => Change::Nothing,
        }
    }

    /// Whether nothing may change, so that each lock stays over the node, as `leaves` says of one.
    pub fn leaves_all(&self) -> bool
        ensures { IsTrue result → (s : SchemeView) (thread : ℕ) (label : ALabel) → LeavesOthers thread label self.now
            → (lock : Lock) → IsLockOf s thread lock → (l : Lock) → CarriedBack s thread label lock l ↔ (l ≡ lock) }
    {
        match self {
            Change::Nothing => true,
            Change::Base(_) | Change::Field(_) => false,
        }
    }

    /// Whether a path isn't among what may change.
    #[inline(always)]
    fn leaves_path(&self, path: &Path) -> bool
        ensures { IsTrue result → IsOther self.now path.now }
    {
        match self {
            Change::Nothing => true,
            Change::Base(variable) => path.base() != *variable,
            Change::Field(field) => !path.follows(*field),
        }
    }

    /// Whether a lock stays over a node that may change this: where it is one of the program's, it alone is needed
    /// before the node because it is needed after it.
    #[inline(always)]
    pub fn leaves(&self, lock: &Lock) -> bool
        ensures { IsTrue result → (s : SchemeView) (thread : ℕ) (label : ALabel) → LeavesOthers thread label self.now
            → IsLockOf s thread lock.now → (l : Lock) → CarriedBack s thread label lock.now l ↔ (l ≡ lock.now) }
    {
        match lock {
            Lock::All => true,
            Lock::Class(_, _) => true,
            Lock::Path(path, _) => self.leaves_path(path),
        }
    }
}

/// Whether a lock stays over a node: where it is one of the program's, it alone is needed before the node because it is
/// needed after it.
#[inline(always)]
pub fn stays(thread: u16, label: &Label, lock: &Lock) -> bool
    ensures { IsTrue result → (s : SchemeView) → IsLockOf s thread lock.now
        → (l : Lock) → CarriedBack s thread label.now lock.now l ↔ (l ≡ lock.now) }
{
    Change::of(thread, label).leaves(lock)
}
