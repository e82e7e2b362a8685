//! What painting keeps.

ghost use Rattle.std.specs.{Prelude.{◌≡◌, ℕ, List}, List.{flat_map}};
ghost use Rattle.sect_paint.specs.declared.looks.Kind.{Kind};
ghost use Rattle.sect_paint.specs.Painting.{bytes_of, text_stretches};

/// A text that is painted is the plain one but for the escape sequences round its stretches.
pub fn painting_keeps_the_text()
    ensures { (of : Kind) (text : List ℕ) → flat_map bytes_of (text_stretches of text) ≡ text }
{}
