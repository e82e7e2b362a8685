//! Laws of locks: what holds of every scheme. The functions have empty bodies; the clauses say the laws.

pub mod needs;
pub mod records;

ghost use Rattle.std.specs.Prelude.{◌≡◌, ◌<◌, ℕ, List, length};
ghost use Rattle.sect_lemmas.specs.Lists.{Has};
ghost use Rattle.sect_types.specs.{Sections.{SectionView}, Sound.{AreSound}, declared.expansion.action.Label.{Label}};
ghost use Rattle.sect_types.specs.{Statements.{TextView}, Programs.{ProgramView}};
ghost use Rattle.sect_graph.specs.declared.flow.Node.{Node};
ghost use Rattle.sect_names.specs.{declared.lock.Lock.{Lock}, Schemes.{SchemeView, IsScheme}, Locks.{IsLockOf}};
ghost use Rattle.sect_names.specs.{Carrying.{Generated, CarriedBack}, Needed.{IsLeast}, Order.{AreInOrder}};
ghost use Rattle.sect_names.specs.Laws.{IsProgramStep, IsSoundStep, KeepsItsClass, RespectsCover, StandsIn};
ghost use Rattle.sect_names.specs.{Laws.{AreOneScheme}, Sources.{IsTypedText}};

/// A path that may denote before a step of the program what another denotes after it has no class but that one's.
pub fn carried_paths_keep_their_class()
    ensures { (s : SchemeView) → IsScheme s → (t : ℕ) (step : Label) → IsProgramStep s t step → KeepsItsClass s t step }
{}

/// Where a lock covers another after a step of the program, what it is carried back to covers what the other is.
pub fn carrying_back_respects_covering()
    ensures { (s : SchemeView) → IsScheme s → (t : ℕ) (step : Label) → IsProgramStep s t step → RespectsCover s t step }
{}

/// The locks that the sections of a thread may take are finitely many: one list has them all.
pub fn locks_are_finitely_many()
    ensures { (s : SchemeView) (t : ℕ) → (all : List Lock) × ((l : Lock) → IsLockOf s t l → Has all l) }
{}

/// What a sound step of a thread needs of itself is a lock that the thread's sections may take, and what such a lock is
/// carried back to over such a step is one again.
pub fn locks_stay_the_programs()
    ensures generated { (s : SchemeView) → IsScheme s → (t : ℕ) (step : Label) → IsSoundStep s.program t step
        → (l : Lock) → Generated s t step l → IsLockOf s t l }
    ensures carried { (s : SchemeView) → IsScheme s → (t : ℕ) (step : Label) → IsSoundStep s.program t step
        → (l r : Lock) → IsLockOf s t l → CarriedBack s t step l r → IsLockOf s t r }
{}

/// What a node of a section's graph does is a statement of the program or looks at a condition, and where the program
/// is sound, it agrees with the declarations that the section's thread sees.
pub fn steps_of_sections()
    ensures program { (s : SchemeView) → IsScheme s → (section : SectionView) (x : Node) → StandsIn s section x
        → IsProgramStep s section.thread x.label }
    ensures sound { (s : SchemeView) → IsScheme s
        → AreSound s.program.records s.program.globals s.program.locals s.program.texts
        → (section : SectionView) (x : Node) → StandsIn s section x
        → IsSoundStep s.program section.thread x.label × (section.thread < length s.program.locals) }
{}

/// A section has one least lock set in canonical order, whatever its end generates.
pub fn least_sets_are_one()
    ensures { (s : SchemeView) (t : ℕ) (last : List Lock) (body : TextView) (locks others : List Lock)
        → IsLeast s t last body locks
        → IsLeast s t last body others → AreInOrder locks → AreInOrder others → locks ≡ others }
{}

/// A program has one scheme: what two schemes of it know is the same, however many fields their paths may have.
pub fn schemes_are_one()
    ensures { (s r : SchemeView) → IsScheme s → IsScheme r → s.program ≡ r.program → AreOneScheme s r }
{}

/// A source text has one program at most.
pub fn texts_have_one_program()
    ensures { (bytes : List ℕ) (p q : ProgramView) → IsTypedText bytes p → IsTypedText bytes q → q ≡ p }
{}
