//! What is needed before a statement for what is needed after it.

ghost use Rattle.std.specs.Prelude.{◌≡◌, ◌≤◌, ◌<◌, ◌↔◌, [], ◌∷◌, Some, None, IfOk, IsTrue};
ghost use Rattle.sect_lemmas.specs.Lists.{Has};
ghost use Rattle.sect_points.specs.{declared.holders.Variable.{Variable}, Paths.{PathView, var, dot}};
ghost use Rattle.sect_names.specs.{declared.lock.Lock.{Lock}, Locks.{depth}};
ghost use Rattle.sect_names.specs.Carrying.{Replaced, AreOfOneClass, BeforeStore, BeforeAssignment, Before, GoesOn};
ghost use Rattle.sect_names.specs.Carrying.{LockOn, CarriedBack, right_for};
ghost use Rattle.sect_names.specs.Earlier.{IsOneOf};
ghost use Rattle.sect_names.specs.steps.OverStore.{OverField};
ghost use Rattle.sect_names.specs.declared.lock.Lock.TheVariants as lock;

use crate::lock::{Effect, Lock, Right};
use crate::path::Path;
use crate::scheme::Scheme;
use crate::variables::{variable_in, variable_of};
use sect_points::Variable;
use sect_types::{Action, Field, Label, Value};
use std::alloc::{AllocError, Global};

impl Effect {
    /// The right over a class that it asks for.
    pub fn right(self) -> Right
        ensures { result ≡ right_for self }
    {
        match self {
            Effect::Read => Right::Read,
            Effect::Write => Right::Write,
        }
    }
}

/// The paths that may denote before a node what a path denotes after it: one at most, but for those over a store into a
/// field.
#[derive(Drop)]
pub enum Earlier {
    Nothing,
    Alone(Path),
    Any(Vec<Path>),
}

/// A path alone.
fn alone(alloc: Global, path: Path) -> Result<Vec<Path>, AllocError>
    ensures { IfOk result (λ paths. paths.items ≡ path ∷ []) }
{
    let mut paths = Vec::new(alloc);
    paths.push(path)?;
    Ok(paths)
}

/// The path alone, which stays.
fn unchanged(path: &Path) -> Result<Earlier, AllocError>
    ensures { IfOk result (λ paths. (q : PathView) → IsOneOf paths q ↔ (q ≡ path.now)) }
{
    Ok(Earlier::Alone(path.try_clone()?))
}

/// The path alone, with `start` in place of the variable `x`, where it begins with that.
#[inline(always)]
fn moved(x: Variable, mut start: Path, path: &Path) -> Result<Earlier, AllocError>
    ensures { IfOk result (λ paths. (q : PathView) → IsOneOf paths q ↔ Replaced x (Some start) path.now q) }
{
    if path.base() == x {
        start.append(path.fields())?;
        Ok(Earlier::Alone(start))
    } else {
        unchanged(path)
    }
}

/// The path, unless it begins with the variable `x`.
fn unless_based(x: Variable, path: &Path) -> Result<Earlier, AllocError>
    ensures { IfOk result (λ paths. (q : PathView) → IsOneOf paths q ↔ Replaced x None path.now q) }
{
    if path.base() == x {
        Ok(Earlier::Nothing)
    } else {
        Ok(Earlier::Alone(path.try_clone()?))
    }
}

/// Whether a path and a variable have a class, and it is one.
fn are_of_one_class(scheme: &Scheme, path: &Path, variable: Variable) -> bool
    ensures { IsTrue result ↔ AreOfOneClass scheme.now.classes path.now (var variable) }
{
    match scheme.class_of(path) {
        Some(class) => scheme.class_of_variable(variable) == Some(class),
        None => false,
    }
}

/// The store `z.f = w`: the variable z, the field f, and the variable w, none where `null` is stored.
#[derive(Clone, Copy)]
struct FieldStore {
    base: Variable,
    field: Field,
    value: Option<Variable>,
}

impl FieldStore {
    /// The paths with one field more, but `z.f` itself.
    fn with_field(
        self,
        alloc: Global,
        field: Field,
        paths: &[Path],
    ) -> Result<Vec<Path>, AllocError>
        ensures { IfOk result (λ longer. (q : PathView)
            → Has longer.items q ↔ ((r : PathView) × Has paths.now r × GoesOn self.base self.field field r q)) }
    {
        let mut longer = Vec::new(alloc);
        for path in paths {
            if !self.is_target(field, path) {
                longer.push(path.extended(&[field])?)?;
            }
        }
        Ok(longer)
    }

    /// Whether the path with this field more is `z.f` itself.
    fn is_target(self, field: Field, path: &Path) -> bool
        ensures { IsTrue result ↔ ((field ≡ self.field) × (path.now ≡ var self.base)) }
    {
        field == self.field && path.is_variable(self.base)
    }

    /// The paths that may denote before the store what a beginning with one field more denotes after it, where these
    /// may denote what the beginning does.
    fn over_field(
        self,
        scheme: &Scheme,
        alloc: Global,
        beginning: &Path,
        field: Field,
        paths: &[Path],
    ) -> Result<Vec<Path>, AllocError>
        ensures { IfOk result (λ over. (q : PathView) → Has over.items q
            ↔ OverField scheme.now.classes self.base self.field self.value beginning.now field paths.now q) }
    {
        let mut over = self.with_field(alloc, field, paths)?;
        if let Some(value) = self.value_read(scheme, beginning, field) {
            over.push(Path::new(alloc, value))?;
        }
        Ok(over)
    }

    /// What the field of a path may denote because of the store.
    fn value_read(self, scheme: &Scheme, path: &Path, field: Field) -> Option<Variable>
        ensures { (v : Variable) → (result ≡ Some v) ↔ ((field ≡ self.field)
            × AreOfOneClass scheme.now.classes path.now (var self.base) × (self.value ≡ Some v)) }
    {
        if field == self.field && are_of_one_class(scheme, path, self.base) {
            self.value
        } else {
            None
        }
    }

    /// The paths that may denote before the store what this path denotes after it, field by field.
    fn field_by_field(
        self,
        scheme: &Scheme,
        alloc: Global,
        path: &Path,
    ) -> Result<Vec<Path>, AllocError>
        ensures { IfOk result (λ paths. (q : PathView) → Has paths.items q
            ↔ BeforeStore scheme.now.classes self.base self.field self.value path.now q) }
    {
        let mut beginning = Path::new(alloc, path.base());
        let mut paths = alone(alloc, Path::new(alloc, path.base()))?;
        for field in path.fields() {
            paths = self.over_field(scheme, alloc, &beginning, *field, paths.as_slice())?;
            beginning.push(*field)?;
        }
        Ok(paths)
    }

    /// The paths that may denote before the store what this path denotes after it.
    fn before(self, scheme: &Scheme, alloc: Global, path: &Path) -> Result<Earlier, AllocError>
        ensures { IfOk result (λ paths. (q : PathView) → IsOneOf paths q
            ↔ BeforeStore scheme.now.classes self.base self.field self.value path.now q) }
    {
        if path.follows(self.field) {
            return Ok(Earlier::Any(self.field_by_field(scheme, alloc, path)?));
        }
        unchanged(path)
    }
}

impl Scheme {
    /// The locks that are needed before a node of the graph of a thread's section, where this lock is needed after it.
    /// The lock on all and class locks stay. A path lock becomes those of the paths that may denote before the node
    /// what its path denotes after it, each the lock of its class where it has more than k fields; a path that has no
    /// class needs none.
    pub fn rewrite(
        &self,
        alloc: Global,
        thread: u16,
        label: Label,
        lock: &Lock,
    ) -> Result<Vec<Lock>, AllocError>
        ensures { IfOk result (λ locks. (l : Lock) → Has locks.items l ↔ CarriedBack self.now thread label lock.now l) }
    {
        match lock {
            Lock::All | Lock::Class(_, _) => {
                let mut locks = Vec::new(alloc);
                locks.push(lock.try_clone()?)?;
                Ok(locks)
            }
            Lock::Path(path, effect) => {
                let paths = self.before(alloc, thread, label, path)?;
                self.locks_on(alloc, *effect, paths.as_slice())
            }
        }
    }

    /// The paths that may denote before a node what this path denotes after it.
    pub fn before(
        &self,
        alloc: Global,
        thread: u16,
        label: Label,
        path: &Path,
    ) -> Result<Vec<Path>, AllocError>
        ensures { IfOk result (λ paths. (q : PathView)
            → Has paths.items q ↔ Before self.now.classes thread label path.now q) }
    {
        match self.earlier(alloc, thread, label, path)? {
            Earlier::Nothing => Ok(Vec::new(alloc)),
            Earlier::Alone(path) => alone(alloc, path),
            Earlier::Any(paths) => Ok(paths),
        }
    }

    /// The paths that may denote before a node what this path denotes after it, as `before` gives them.
    pub fn earlier(
        &self,
        alloc: Global,
        thread: u16,
        label: Label,
        path: &Path,
    ) -> Result<Earlier, AllocError>
        ensures { IfOk result (λ paths. (q : PathView)
            → IsOneOf paths q ↔ Before self.now.classes thread label path.now q) }
    {
        let Label::Act(action) = label else {
            return unchanged(path);
        };
        match action {
            Action::Assign(target, value) => before_assignment(alloc, thread, target, value, path),
            Action::New(target, _, _) => unless_based(Variable::Local(thread, target), path),
            Action::Load(target, base, field) => {
                let target = Variable::Local(thread, target);
                before_load(alloc, target, variable_of(thread, base), field, path)
            }
            Action::Store(base, field, value) => {
                let store = FieldStore {
                    base: variable_of(thread, base),
                    field,
                    value: variable_in(thread, value),
                };
                store.before(self, alloc, path)
            }
            Action::Compute(_, _, _, _) | Action::Print(_) => unchanged(path),
        }
    }

    /// The locks with this effect on these paths.
    fn locks_on(
        &self,
        alloc: Global,
        effect: Effect,
        paths: &[Path],
    ) -> Result<Vec<Lock>, AllocError>
        ensures { IfOk result (λ locks. (l : Lock)
            → Has locks.items l ↔ ((q : PathView) × Has paths.now q × LockOn self.now effect q l)) }
    {
        let mut locks = Vec::new(alloc);
        for path in paths {
            if let Some(lock) = self.lock_on(effect, path)? {
                locks.push(lock)?;
            }
        }
        Ok(locks)
    }

    /// The lock with this effect on a path, if it has a class.
    fn lock_on(&self, effect: Effect, path: &Path) -> Result<Option<Lock>, AllocError>
        ensures { IfOk result (λ lock. (l : Lock) → (lock ≡ Some l) ↔ LockOn self.now effect path.now l) }
    {
        match self.class_of(path) {
            None => Ok(None),
            Some(class) => Ok(Some(self.lock_in(class, effect, path.try_clone()?))),
        }
    }

    /// The lock with this effect on a path of this class: that of the class where the path has more than k fields.
    pub fn lock_in(&self, class: u16, effect: Effect, path: Path) -> Lock
        ensures short { depth path ≤ self.now.most → result ≡ lock.Path path effect }
        ensures long { self.now.most < depth path → result ≡ lock.Class class (right_for effect) }
    {
        if path.fields().len() > self.k() as usize {
            Lock::Class(class, effect.right())
        } else {
            Lock::Path(path, effect)
        }
    }
}

/// The paths that may denote before `target = value` what this path denotes after it.
#[inline(always)]
fn before_assignment(
    alloc: Global,
    thread: u16,
    target: u16,
    value: Value,
    path: &Path,
) -> Result<Earlier, AllocError>
    ensures { IfOk result (λ paths. (q : PathView)
        → IsOneOf paths q ↔ BeforeAssignment thread target value path.now q) }
{
    let x = Variable::Local(thread, target);
    match value {
        Value::Number(_) => unchanged(path),
        Value::Null => unless_based(x, path),
        Value::Local(number) => {
            let start = Path::new(alloc, Variable::Local(thread, number));
            moved(x, start, path)
        }
        Value::Global(number) => {
            let start = Path::new(alloc, Variable::Global(number));
            moved(x, start, path)
        }
    }
}

/// The paths that may denote before the load `x = z.f` what this path denotes after it.
#[inline(always)]
fn before_load(
    alloc: Global,
    x: Variable,
    z: Variable,
    f: Field,
    path: &Path,
) -> Result<Earlier, AllocError>
    ensures { IfOk result (λ paths. (q : PathView)
        → IsOneOf paths q ↔ Replaced x (Some (dot (var z) f)) path.now q) }
{
    let mut start = Path::new(alloc, z);
    start.push(f)?;
    moved(x, start, path)
}
