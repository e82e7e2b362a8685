//! Laws of records: what sets hold and what paths denote is of the records that the declarations have.

ghost use Rattle.std.specs.Prelude.{ℕ};
ghost use Rattle.sect_types.specs.declared.expansion.action.Label.{Label};
ghost use Rattle.sect_names.specs.{declared.lock.Lock.{Lock}, Schemes.{SchemeView, IsScheme}};
ghost use Rattle.sect_names.specs.{Carrying.{Generated, CarriedBack}, Laws.{IsProgramStep, IsSoundStep}};
ghost use Rattle.sect_names.specs.Records.{IsTypedProgram, LocalsFit, FieldsFit, PathsFit, ClassesHaveOneRecord};
ghost use Rattle.sect_names.specs.Records.{KeepsItsRecord, IsNeedable};

/// Each site in the set of a local, of a field or of a path that refers to objects is of their record.
pub fn sets_have_the_record()
    ensures locals { (s : SchemeView) → IsScheme s → IsTypedProgram s.program → LocalsFit s }
    ensures fields { (s : SchemeView) → IsScheme s → IsTypedProgram s.program → FieldsFit s }
    ensures paths { (s : SchemeView) → IsScheme s → IsTypedProgram s.program → PathsFit s }
{}

/// The sites of one class have one record.
pub fn a_class_has_one_record()
    ensures { (s : SchemeView) → IsScheme s → IsTypedProgram s.program → ClassesHaveOneRecord s }
{}

/// A statement of a typed program is sound. Carried back over it, a path refers to objects of the same record. The
/// locks that it needs of itself, and those to which such locks are carried back, are on paths of the thread whose
/// objects nothing guards, on classes or on all.
pub fn carried_paths_keep_their_record()
    ensures sound { (s : SchemeView) → IsTypedProgram s.program → (t : ℕ) (step : Label) → IsProgramStep s t step
        → IsSoundStep s.program t step }
    ensures paths { (s : SchemeView) (t : ℕ) (step : Label) → IsSoundStep s.program t step → KeepsItsRecord s t step }
    ensures generated { (s : SchemeView) → IsScheme s → (t : ℕ) (step : Label) → IsSoundStep s.program t step
        → (l : Lock) → Generated s t step l → IsNeedable s t l }
    ensures carried { (s : SchemeView) (t : ℕ) (step : Label) → IsSoundStep s.program t step
        → (l r : Lock) → IsNeedable s t l → CarriedBack s t step l r → IsNeedable s t r }
{}
