//! The parts of a text that is cut at a byte.

ghost use Rattle.std.specs.Prelude.{◌≡◌, ◌∷◌, [], IsTrue, ◌↔◌, length, MatchOption, IfSome, take_while, not};
ghost use Rattle.std.specs.{Prelude.{◌==◌}, Option.{option_copied}};
ghost use Rattle.sect_cert.specs.Parts.{parts, parts_left};

use memchr::memchr;
use std::marker::Model;

/// The parts that are left of a text that is cut at each mark.
#[derive(Drop)]
pub struct Parts<'a> {
    rest: Option<&'a [u8]>,
    mark: u8,
}

impl<'a> Model for Parts<'a> {
    ghost use Rattle.std.specs.Prelude.{List, ℕ};
    ghost use Rattle.std.specs.Option.{option_copied};
    ghost use Rattle.sect_cert.specs.Parts.{parts_left};

    ghost Value = { List (List ℕ) };

    ghost view = { λ p. parts_left p.mark (option_copied p.rest) };
}

/// How long the part at the front is.
fn part_len(bytes: &[u8], mark: u8) -> usize
    ensures { result ≡ length (take_while (λ b. not (b == mark)) bytes.now) }
{
    bytes.iter().take_while(|byte| **byte != mark).count()
}

/// The same of a part that may be long: a search that looks at many bytes at once begins late.
fn long_part_len(bytes: &[u8], mark: u8) -> usize
    ensures { result ≡ length (take_while (λ b. not (b == mark)) bytes.now) }
{
    match memchr(mark, bytes) {
        Some(len) => len,
        None => bytes.len(),
    }
}

/// The part at the front, which is so long, and what follows the mark behind it.
fn cut_at(bytes: &[u8], mark: u8, len: usize) -> (&[u8], Option<&[u8]>)
    requires { len ≡ length (take_while (λ b. not (b == mark)) bytes.now) }
    ensures { parts mark bytes.now ≡ result.0.now ∷ parts_left mark (option_copied result.1) }
{
    if len < bytes.len() {
        let (front, back) = bytes.split_at(len);
        (front, Some(back.split_at(1).1))
    } else {
        (bytes, None)
    }
}

/// The part at the front, and what follows the mark behind it.
fn cut(bytes: &[u8], mark: u8) -> (&[u8], Option<&[u8]>)
    ensures { parts mark bytes.now ≡ result.0.now ∷ parts_left mark (option_copied result.1) }
{
    cut_at(bytes, mark, part_len(bytes, mark))
}

/// What stands before the first mark and behind it, where there is one.
pub fn halves(bytes: &[u8], mark: u8) -> Option<(&[u8], &[u8])>
    ensures { IfSome result (λ halves. parts mark bytes.now ≡ halves.0.now ∷ parts mark halves.1.now) }
{
    let (front, back) = cut(bytes, mark);
    Some((front, back?))
}

impl<'a> Parts<'a> {
    /// The first part of a text, and the others.
    pub fn of(bytes: &'a [u8], mark: u8) -> (&'a [u8], Parts<'a>)
        ensures { parts mark bytes.now ≡ result.0.now ∷ result.1 }
    {
        let (first, rest) = cut(bytes, mark);
        (first, Parts { rest, mark })
    }

    /// Whether no part is left.
    #[tactic(auto, using(crate::proofs::CutTexts::some_parts))]
    pub fn is_empty(&self) -> bool
        ensures { IsTrue result ↔ (self.now ≡ []) }
    {
        self.rest.is_none()
    }

    /// Takes the next part.
    pub fn next(&mut self) -> Option<&'a [u8]>
        ensures { MatchOption result (self.old ≡ []) (λ part. self.old ≡ part.now ∷ self.new) }
    {
        let rest = self.rest?;
        let (part, back) = cut(rest, self.mark);
        self.rest = back;
        Some(part)
    }

    /// Takes the next part, as `next` does, where it may be long.
    pub fn next_long(&mut self) -> Option<&'a [u8]>
        ensures { MatchOption result (self.old ≡ []) (λ part. self.old ≡ part.now ∷ self.new) }
    {
        let rest = self.rest?;
        let (part, back) = cut_at(rest, self.mark, long_part_len(rest, self.mark));
        self.rest = back;
        Some(part)
    }
}
