//! Laws of what paths denote while threads run.

ghost use Rattle.std.specs.Prelude.{◌≡◌, ◌<◌, ◌⊎◌, ℕ, length, List};
ghost use Rattle.sect_lemmas.specs.Lists.{Has};
ghost use Rattle.sect_types.specs.{Programs.{ProgramView}, Statements.{TextView}, Store.{StoreView}};
ghost use Rattle.sect_types.specs.{Meaning.{WorkView}, Whole.{first_store, first_work}};
ghost use Rattle.sect_types.specs.{declared.expansion.action.Action.{Action}, declared.expansion.action.Label.{Label}};
ghost use Rattle.sect_types.specs.declared.expansion.action.Label.TheVariants.{Act};
ghost use Rattle.sect_types.specs.declared.declarations.types.ValueType.{ValueType};
ghost use Rattle.sect_types.specs.declared.meaning.store.ObjectName.{ObjectName};
ghost use Rattle.sect_types.specs.declared.meaning.store.Datum.{Datum};
ghost use Rattle.sect_types.specs.declared.meaning.store.Datum.TheVariants.{Refers};
ghost use Rattle.sect_points.specs.Paths.{PathView};
ghost use Rattle.sect_names.specs.{declared.lock.Effect.{Effect}, declared.lock.Lock.{Lock}};
ghost use Rattle.sect_names.specs.{declared.lock.Lock.TheVariants.{Path}, Schemes.{SchemeView, IsScheme}};
ghost use Rattle.sect_names.specs.{Locks.{PathTo, IsOwn}, Carrying.{CarriedBack}, Laws.{IsProgramStep}};
ghost use Rattle.sect_names.specs.{Records.{IsTypedProgram, IsNeedable}, Walks.{Leads, StandsInThread}};
ghost use Rattle.sect_names.specs.Along.{NeededIn};
ghost use Rattle.sect_emit.specs.Plan.{path_datum};
ghost use Rattle.sect_emit.specs.Pointed.{ArePointed, IsPointed, ObjectsStay, StepsTo, IsDenoted, IsMade};
ghost use Rattle.sect_emit.specs.{Pointed.{DenotedBefore, IsSecuredBy}, NeededAccesses.{NeedsItsAccess}};
ghost use Rattle.sect_emit.specs.GoesOn.{GoesOnTo};

/// What a path of the thread denotes that refers to objects lies in the path's set, and is of its record and class.
pub fn value_is_in_the_set()
    ensures { (s : SchemeView) → IsScheme s → IsTypedProgram s.program
        → (t : ℕ) (store : StoreView) (w : WorkView) → IsPointed s t store w
        → (p : PathView) (r : ℕ) (o : ObjectName) → PathTo s.program p r → IsOwn t p
        → path_datum store w.locals p ≡ Refers o → IsDenoted s store p r o }
{}

/// A step of a thread keeps references within the points-to sets, its own and those of the other threads' locals, and
/// keeps the objects with their sites.
pub fn steps_keep_references_in_their_sets()
    ensures own { (s : SchemeView) → IsScheme s → IsTypedProgram s.program
        → (t : ℕ) (step : Label) → IsProgramStep s t step
        → (store after : StoreView) (w v : WorkView) → IsPointed s t store w → StepsTo s.program t step store w after v
        → IsPointed s t after v × ObjectsStay store after }
    ensures others { (s : SchemeView) (store after : StoreView) → ObjectsStay store after
        → (u : ℕ) (locals : List Datum) → ArePointed s store u locals → ArePointed s after u locals }
{}

/// What a path of the thread denotes after its step, some path that it is carried back to denoted before it, or the
/// step is a `new`, the path its local and the object the new one.
pub fn carrying_back_keeps_the_value()
    ensures { (s : SchemeView) → IsScheme s → IsTypedProgram s.program
        → (t : ℕ) (step : Label) → IsProgramStep s t step
        → (store after : StoreView) (w v : WorkView) → IsPointed s t store w → StepsTo s.program t step store w after v
        → (p : PathView) (r : ℕ) (o : ObjectName) → PathTo s.program p r → IsOwn t p
        → path_datum after v.locals p ≡ Refers o → DenotedBefore s t step store w p o }
{}

/// Where the path of a lock denotes an object after a step, one of the locks that it is carried back to is on a path
/// that denoted the object before it or on the object's class, or the step makes the object. So it is with what a text
/// needs before its first step.
pub fn secured_back()
    ensures step { (s : SchemeView) → IsScheme s → IsTypedProgram s.program
        → (t : ℕ) (step : Label) → IsProgramStep s t step
        → (store after : StoreView) (w v : WorkView) → IsPointed s t store w → StepsTo s.program t step store w after v
        → (p : PathView) (e : Effect) (o : ObjectName) → IsNeedable s t (Path p e)
        → path_datum after v.locals p ≡ Refers o
        → IsSecuredBy s (CarriedBack s t step (Path p e)) store w e o ⊎ IsMade t w.made step p o }
    ensures text { (s : SchemeView) → IsScheme s → IsTypedProgram s.program
        → (t : ℕ) (last : List Lock) → ((l : Lock) → Has last l → IsNeedable s t l)
        → (text : TextView) → StandsInThread s t text
        → (store after : StoreView) (w v : WorkView) → IsPointed s t store w
        → (step : Label) (rest : TextView) → Leads text step rest → StepsTo s.program t step store w after v
        → (p : PathView) (e : Effect) (o : ObjectName) → NeededIn s t last rest (Path p e)
        → path_datum after v.locals p ≡ Refers o
        → IsSecuredBy s (NeededIn s t last text) store w e o ⊎ IsMade t w.made step p o }
{}

/// A running text goes on by a step that it begins with, and with what that step leads to.
pub fn running_texts_follow_their_steps()
    ensures { (p : ProgramView) (t : ℕ) (text : TextView) (store after : StoreView) (w v : WorkView) (rest : TextView)
        → GoesOnTo p t text store w rest after v
        → (step : Label) × Leads text step rest × StepsTo p t step store w after v }
{}

/// A statement that looks into an object or makes one generates the lock for it.
pub fn accesses_are_needed()
    ensures { (s : SchemeView) → IsScheme s → IsTypedProgram s.program
        → (t : ℕ) (store : StoreView) (w : WorkView) → IsPointed s t store w
        → (a : Action) → IsProgramStep s t (Act a) → NeedsItsAccess s t store w a }
{}

/// At the start each thread is pointed.
pub fn threads_start_pointed()
    ensures { (s : SchemeView) (fuel t : ℕ) → t < length s.program.texts → (types : List ValueType)
        → IsPointed s t (first_store s.program) (first_work fuel types) }
{}
