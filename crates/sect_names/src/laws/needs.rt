//! Laws of what is needed, step by step, whatever the end of a section generates.

ghost use Rattle.std.specs.Prelude.{◌≡◌, ◌≤◌, ◌↔◌, ◌⊎◌, ℕ, length, List, Some, slice_get};
ghost use Rattle.sect_lemmas.specs.Lists.{Has};
ghost use Rattle.sect_types.specs.{Sections.{SectionView, sections_of}, Statements.{TextView, Stop}, Traces.{Visit}};
ghost use Rattle.sect_types.specs.{declared.expansion.action.Field.{Field}, declared.expansion.action.Label.{Label}};
ghost use Rattle.sect_graph.specs.{declared.flow.Node.{Node}, Graphs.{IsGraphOf}, Rests.{rest_at}};
ghost use Rattle.sect_points.specs.Paths.{PathView};
ghost use Rattle.sect_names.specs.{declared.lock.Lock.{Lock}, Schemes.{SchemeView, IsScheme}, Locks.{PathTo, IsOwn}};
ghost use Rattle.sect_names.specs.{Laws.{IsProgramStep}, Needed.{IsNeededOn, IsNeeded, IsNeededFrom}};
ghost use Rattle.sect_names.specs.{Records.{IsTypedProgram, IsNeedable}, Walks.{labels_of, Leads, StandsInThread}};
ghost use Rattle.sect_names.specs.Along.{NeededBefore, NeededAlong, NeededIn, AreProgramSteps, GoesBy, ReadsBeginnings};

/// What is needed over steps that are split in two is what is needed step by step; what a section needs, some walk
/// through its body needs; what a text needs, its end generates, or its first step needs it of itself, or it is carried
/// back over that step from what is needed of the rest; and what is needed at a node of a graph, the statements need
/// that are still to run there.
pub fn needed_step_by_step()
    ensures steps { (s : SchemeView) (t : ℕ) (last : List Lock) (steps : List Visit) (l : Lock)
        → IsNeededOn s t last steps l ↔ NeededAlong s t last (labels_of steps) l }
    ensures section { (s : SchemeView) (t : ℕ) (last : List Lock) (text : TextView) (l : Lock)
        → IsNeeded s t last text l ↔ NeededIn s t last text l }
    ensures text { (s : SchemeView) (t : ℕ) (last : List Lock) (text : TextView) (l : Lock) → NeededIn s t last text l
        ↔ (((text ≡ Stop) × Has last l)
        ⊎ ((step : Label) × (rest : TextView) × Leads text step rest
        × NeededBefore s t step (NeededIn s t last rest) l)) }
    ensures node { (s : SchemeView) (t : ℕ) (last : List Lock) (body : TextView) (g : List Node) → IsGraphOf body g
        → (j : ℕ) (l : Lock) → j ≤ length g → IsNeededFrom s t last body g j l ↔ NeededIn s t last (rest_at body j) l }
{}

/// The statements of a section are its thread's, and a step of a text of the thread is the program's, as is what is
/// left.
pub fn texts_stay_in_their_thread()
    ensures section { (s : SchemeView) (i : ℕ) (section : SectionView)
        → slice_get (sections_of s.program.texts) i ≡ Some section → StandsInThread s section.thread section.body }
    ensures step { (s : SchemeView) (t : ℕ) (text : TextView) (step : Label) (rest : TextView) → Leads text step rest
        → StandsInThread s t text → IsProgramStep s t step × StandsInThread s t rest }
{}

/// Where a lock on a path is needed, some lock that is needed there too allows to read each of its beginnings.
pub fn beginnings_are_needed()
    ensures step { (s : SchemeView) → IsScheme s → (t : ℕ) (step : Label) → IsProgramStep s t step
        → (last : List Lock) (steps : List Label) → ReadsBeginnings s (NeededAlong s t last steps)
        → ReadsBeginnings s (NeededBefore s t step (NeededAlong s t last steps)) }
    ensures along { (s : SchemeView) → IsScheme s → (t : ℕ) (last : List Lock) → ReadsBeginnings s (Has last)
        → (steps : List Label) → AreProgramSteps s t steps → ReadsBeginnings s (NeededAlong s t last steps) }
    ensures text { (s : SchemeView) → IsScheme s → (t : ℕ) (last : List Lock) → ReadsBeginnings s (Has last)
        → (text : TextView) → StandsInThread s t text → ReadsBeginnings s (NeededIn s t last text) }
    ensures section { (s : SchemeView) → IsScheme s → (last : List Lock) → ReadsBeginnings s (Has last)
        → (i : ℕ) (section : SectionView) → slice_get (sections_of s.program.texts) i ≡ Some section
        → ReadsBeginnings s (IsNeeded s section.thread last section.body) }
    ensures node { (s : SchemeView) → IsScheme s → (last : List Lock) → ReadsBeginnings s (Has last)
        → (i : ℕ) (section : SectionView) (g : List Node) → slice_get (sections_of s.program.texts) i ≡ Some section
        → slice_get s.graphs.sections i ≡ Some g
        → (j : ℕ) → j ≤ length g → ReadsBeginnings s (IsNeededFrom s section.thread last section.body g j) }
{}

/// A beginning of a path of the thread that refers to objects is one of the thread too, and refers to objects of the
/// record of the field by which the path goes on.
pub fn beginnings_are_typed()
    ensures { (s : SchemeView) (t : ℕ) (p q : PathView) (f : Field) (r : ℕ) → PathTo s.program p r → IsOwn t p
        → GoesBy p q f → PathTo s.program q f.of × IsOwn t q }
{}

/// The locks that a text of a thread needs are on all, on classes, or on paths of the thread whose objects nothing
/// guards.
pub fn needed_locks_are_the_threads()
    ensures { (s : SchemeView) → IsScheme s → IsTypedProgram s.program → (t : ℕ) (last : List Lock)
        → ((l : Lock) → Has last l → IsNeedable s t l)
        → (text : TextView) → StandsInThread s t text → (l : Lock) → NeededIn s t last text l → IsNeedable s t l }
{}
