//! What holds of every session. The functions have empty bodies; the clauses say the laws.

ghost use Rattle.std.specs.{Prelude.{◌≡◌, ◌≢◌, ℕ, List, Option, Some, None}, List.{flat_map}};
ghost use Rattle.serde_json.specs.Data.{Data};
ghost use Rattle.sect_lsp.specs.Answered.{ids_asked, ids_answered, AreRead};
ghost use Rattle.sect_lsp.specs.{Documents.{DocumentView, text_of, closed, opened}, Server.{ServerView, Takes}};
ghost use Rattle.sect_lsp.specs.Sessions.{Runs};

/// Each request gets one answer, under its own number or name, in the order of the requests. What is told gets none.
pub fn each_request_gets_one_answer()
    ensures step { (s : ServerView) (d : Option Data) (out : List Data) (t : ServerView) → Takes s d out t
        → ids_answered out ≡ ids_asked d }
    ensures run { (s : ServerView) (messages : List (List ℕ)) (out : List Data) (t : ServerView)
        → Runs s messages out t → (ds : List (Option Data)) × AreRead messages ds
        × (ids_answered out ≡ flat_map ids_asked ds) }
{}

/// A document that was closed is forgotten, and the others stay as they are.
pub fn closed_documents_are_forgotten()
    ensures forgotten { (uri : List ℕ) (ds : List DocumentView) → text_of uri (closed uri ds) ≡ None }
    ensures others { (uri other : List ℕ) (ds : List DocumentView) → other ≢ uri
        → text_of other (closed uri ds) ≡ text_of other ds }
{}

/// A document that was opened or changed has the text that was kept for it, and the others stay as they are.
pub fn kept_texts_are_found()
    ensures found { (uri text : List ℕ) (ds : List DocumentView) → text_of uri (opened uri text ds) ≡ Some text }
    ensures others { (uri other text : List ℕ) (ds : List DocumentView) → other ≢ uri
        → text_of other (opened uri text ds) ≡ text_of other ds }
{}
