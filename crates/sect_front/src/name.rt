//! Names.

ghost use Rattle.std.specs.Prelude.{◌≡◌, ◌++◌, ◌∷◌, [], OnOk, OnErr, nat_eq, true, Some};
ghost use Rattle.std.specs.{Cmp.Lexicographic.{pointwise}, Cmp.Rules.{comparing, hashing}, String.{string_bytes}};
ghost use Rattle.std.proofs.Common.{rules};
ghost use Rattle.sect_front.specs.Words.{is_name};

use crate::limits::MOST_NAME_BYTES;
use std::alloc::AllocError;
use std::fmt::Write;
use std::hash::{Hash, Hasher};
use std::marker::Model;
use std::{fmt, str};

/// A name, which is kept inline: its bytes, and zeros behind them.
#[derive(Clone, Copy)]
pub struct Name {
    bytes: [u8; MOST_NAME_BYTES],
    len: usize,
}

impl Model for Name {
    ghost use Rattle.std.specs.Prelude.{◌++◌, List, ℕ, length, take};
    ghost use Rattle.sect_front.specs.Names.{IsPadded, zeros_from, bytes_back, length_back};

    ghost Value = { List ℕ };

    ghost view = { λ n. take n.len n.bytes };

    ghost invariant = { λ n. IsPadded n.bytes n.len };

    ghost inverse = { λ b. record { bytes = b ++ zeros_from (length b); len = length b } };

    ghost inverse_ok = { λ a h i. record {
      bytes = bytes_back a.bytes a.len h i;
      len = length_back a.bytes a.len h i;
    } };
}

impl Name {
    /// The name of these bytes.
    #[tactic(auto, using(crate::proofs::NamesLemmas::padded_name))]
    pub fn new(bytes: &[u8]) -> Name
        requires { is_name bytes.now ≡ true }
        ensures { result ≡ bytes.now }
    {
        let mut all = [0u8; MOST_NAME_BYTES];
        let len = bytes.len();
        all[..len].copy_from_slice(bytes);
        Name { bytes: all, len }
    }

    /// Its bytes, at least 1 and at most `MOST_NAME_BYTES`.
    pub fn as_bytes(&self) -> &[u8]
        ensures bytes { result.now ≡ self.now }
        // Every name is one.
        ensures name { is_name self.now ≡ true }
    {
        &self.bytes[..self.len]
    }

    /// Its text.
    pub fn as_str(&self) -> &str
        ensures { result.now ≡ self.now }
    {
        let Ok(text) = str::from_utf8(&self.bytes[..self.len]) else {
            unreachable!();
        };
        text
    }

    /// Adds its text to another.
    pub fn push_to(&self, text: &mut String) -> Result<(), AllocError>
        ensures { OnOk result (string_bytes text.new ≡ string_bytes text.old ++ self.now) }
    {
        // Names are short, so this is quicker than to find that all bytes are a text.
        for byte in &self.bytes[..self.len] {
            text.push(char::from(*byte))?;
        }
        Ok(())
    }

    /// Adds its bytes to a text.
    pub fn append_to(&self, text: &mut Vec<u8>) -> Result<(), AllocError>
        ensures ok { OnOk result (text.new.items ≡ text.old.items ++ self.now) }
        ensures err { OnErr result (text.new.items ≡ text.old.items) }
        // Every name is one.
        ensures name { is_name self.now ≡ true }
    {
        text.extend_from_slice(&self.bytes[..self.len])
    }
}

/// Whether the bytes of two names and the zeros behind them are the same. None is tested by itself, so that a processor
/// compares many at a time.
// a call takes longer than the comparison
#[inline(always)]
fn are_equal(one: &[u8; MOST_NAME_BYTES], other: &[u8; MOST_NAME_BYTES]) -> bool
    ensures { result ≡ pointwise nat_eq one.now other.now }
{
    let mut apart = 0u8;
    for i in 0..MOST_NAME_BYTES {
        apart |= one[i] ^ other[i];
    }
    apart == 0
}

impl PartialEq for Name {
    ghost eq = { pointwise nat_eq };

    ghost laws = { Prim.search (comparing, rules) };

    // many are compared one after another, and a call takes longer than the comparison
    #[inline(always)]
    fn eq(&self, other: &Name) -> bool {
        self.len == other.len && are_equal(&self.bytes, &other.bytes)
    }
}

impl Eq for Name {
    ghost laws = { Prim.search (comparing, rules) };
}

impl Hash for Name {
    ghost hash_input = { λ name. name ∷ [] };

    ghost respects_eq = { Prim.search (hashing, rules) };

    fn hash<H: Hasher>(&self, state: &mut H) {
        // At once: byte by byte takes a step of the hasher for each.
        state.write(self.as_bytes());
    }
}

impl fmt::Display for Name {
    ghost output = { λ n. Some n };

    fn fmt<W: fmt::Write>(&self, f: &mut fmt::Formatter<W>) -> fmt::Result {
        f.write_str(self.as_str())
    }
}
