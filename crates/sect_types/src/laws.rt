//! What the definitions of typed programs say together.

ghost use Rattle.sect_front.specs.TreeView.{TreeView};
ghost use Rattle.sect_types.specs.{First.{IsTyped}, Unfolding.{SumsUnfold, SumsCount, TextsUnfold, FreshUnfold}};

/// In a typed text each call is expanded to its end: what it comes to, its text and its fresh locals are those of its
/// procedure, the calls in it likewise.
pub fn calls_unfold()
    ensures sums { (t : TreeView) → IsTyped t → SumsUnfold t }
    ensures texts { (t : TreeView) → IsTyped t → TextsUnfold t }
    ensures fresh { (t : TreeView) → IsTyped t → FreshUnfold t }
{}

/// The sums, which are found without expanding, are those of each expanded text: its statements, and how deep its
/// blocks stand in one another.
pub fn sums_are_of_texts()
    ensures { (t : TreeView) → SumsCount t }
{}
