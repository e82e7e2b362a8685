//! What a warning means for runs, and a comment for warnings. The clauses say the laws.

ghost use Rattle.sect_emit.specs.Compiled.{CompiledView, IsCompiled};
ghost use Rattle.sect_warnings.specs.Laws.{CommentsAllowWhatTheyList, NeverFilledLocalsReferToNothing};

use sect_world::states_are_well_kept;

/// In no state of a run does a local that is never filled refer to an object.
pub fn never_filled_locals_refer_to_nothing()
    ensures { (c : CompiledView) → IsCompiled c → NeverFilledLocalsReferToNothing c }
{
    states_are_well_kept();
}

/// A comment behind code that has no slash allows exactly the warnings that it lists.
pub fn comments_allow_what_they_list()
    ensures { CommentsAllowWhatTheyList }
{}
