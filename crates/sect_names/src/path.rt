//! Paths: how a section names an object that it is to lock.

ghost use Rattle.std.specs.{Prelude.{◌≡◌, ◌↔◌, IfOk, OnOk, IsTrue, length}, Ordering.{as_partial_cmp}};
ghost use Rattle.std.specs.{Cmp.{partial_equiv_from_equiv}, Cmp.Rules.{comparing}};
ghost use Rattle.sect_lemmas.specs.Lists.{Has};
ghost use Rattle.std.proofs.Common.{rules};
ghost use Rattle.sect_names.specs.Comparing.{path_eq, path_fed, path_cmp, path_equivalence, path_alike, path_ties};
ghost use Rattle.sect_names.specs.Comparing.{path_total, path_order, fields_eq, fields_cmp};

use sect_points::Variable;
use sect_types::Field;
use smallvec::SmallVec;
use std::alloc::{AllocError, Global};
use std::cmp::Ordering;
use std::hash::{Hash, Hasher};
use std::marker::Model;

/// A path: a variable, then fields that are references, the first to be followed first. The fields of a scheme's
/// paths are at most 3, so they are kept inline.
pub struct Path {
    base: Variable,
    fields: SmallVec<Field, 3>,
}

impl Drop for Path {
    fn drop(self) {
        let Path { base: _, fields: _ } = self;
    }
}

impl Model for Path {
    ghost use Rattle.sect_points.specs.Paths.{PathView, path_code, path_of};

    ghost Value = { PathView };

    ghost coded = { path_code };

    ghost view = { λ p. path_of p.base p.fields.items };
}

impl Path {
    ghost use Rattle.sect_points.specs.Paths.{var, dot, dots, base_of, fields_of};
    ghost use Rattle.sect_names.specs.Locks.{depth};

    /// The path of a variable alone.
    pub fn new(alloc: Global, base: Variable) -> Path
        ensures { result ≡ var base }
    {
        Path {
            base,
            fields: SmallVec::new(alloc),
        }
    }

    /// Where it begins.
    pub fn base(&self) -> Variable
        ensures { result ≡ base_of self.now }
    {
        self.base
    }

    /// The fields that it follows, in order.
    pub fn fields(&self) -> &[Field]
        ensures fields { result.now ≡ fields_of self.now }
        ensures depth { length result.now ≡ depth self.now }
    {
        self.fields.as_slice()
    }

    /// Whether it follows this field.
    #[inline(always)]
    pub fn follows(&self, field: Field) -> bool
        ensures { IsTrue result ↔ Has (fields_of self.now) field }
    {
        has_field(self.fields(), field)
    }

    /// Whether it is the path of this variable alone.
    pub fn is_variable(&self, variable: Variable) -> bool
        ensures { IsTrue result ↔ (self.now ≡ var variable) }
    {
        self.base() == variable && self.fields().is_empty()
    }

    /// A path equal to this one.
    pub fn try_clone(&self) -> Result<Path, AllocError>
        ensures { IfOk result (λ path. path ≡ self.now) }
    {
        Ok(Path {
            base: self.base,
            fields: SmallVec::from_slice(*self.fields.allocator(), self.fields.as_slice())?,
        })
    }

    /// The path that goes on from this one by these fields.
    pub fn extended(&self, fields: &[Field]) -> Result<Path, AllocError>
        ensures { IfOk result (λ path. path ≡ dots self.now fields.now) }
    {
        let mut longer = self.try_clone()?;
        longer.append(fields)?;
        Ok(longer)
    }

    /// Goes on by these fields.
    pub fn append(&mut self, fields: &[Field]) -> Result<(), AllocError>
        ensures { OnOk result (self.new ≡ dots self.old fields.now) }
    {
        self.fields.extend_from_slice(fields)?;
        Ok(())
    }

    /// Goes on by one field more.
    pub fn push(&mut self, field: Field) -> Result<(), AllocError>
        ensures { OnOk result (self.new ≡ dot self.old field) }
    {
        self.fields.push(field)?;
        Ok(())
    }
}

/// Whether a field is among these. They are few, so this is quicker than a search of a slice.
#[inline(always)]
fn has_field(fields: &[Field], field: Field) -> bool
    ensures { IsTrue result ↔ Has fields.now field }
{
    for other in fields {
        if *other == field {
            return true;
        }
    }
    false
}

/// Whether two lists of fields are one. They are short, so this is quicker than a comparison of slices.
fn same_fields(fields: &[Field], others: &[Field]) -> bool
    ensures { result ≡ fields_eq fields.now others.now }
{
    let mut left = fields;
    let mut right = others;
    while let Some((first, behind)) = left.split_first() {
        match right.split_first() {
            Some((other, beyond)) if *first == *other => {
                left = behind;
                right = beyond;
            }
            _ => return false,
        }
    }
    right.is_empty()
}

/// How two lists of fields compare, field by field: a list stands before one that goes on from it. They are short, so
/// this is quicker than a comparison of slices.
fn compare_fields(fields: &[Field], others: &[Field]) -> Ordering
    ensures { result ≡ fields_cmp fields.now others.now }
{
    let mut left = fields;
    let mut right = others;
    while let Some((first, behind)) = left.split_first() {
        let Some((other, beyond)) = right.split_first() else {
            return Ordering::Greater;
        };
        match first.cmp(other) {
            Ordering::Equal => {
                left = behind;
                right = beyond;
            }
            order => return order,
        }
    }
    if right.is_empty() {
        Ordering::Equal
    } else {
        Ordering::Less
    }
}

impl PartialEq for Path {
    ghost eq = { path_eq };

    ghost laws = { partial_equiv_from_equiv path_equivalence };

    fn eq(&self, other: &Path) -> bool {
        self.base() == other.base() && same_fields(self.fields(), other.fields())
    }
}

impl Eq for Path {
    ghost laws = { path_equivalence };
}

impl Hash for Path {
    ghost hash_input = { path_fed };

    ghost respects_eq = { path_alike.fed };

    fn hash<H: Hasher>(&self, state: &mut H) {
        self.base().hash(state);
        self.fields().hash(state);
    }
}

impl Ord for Path {
    ghost cmp = { path_cmp };

    ghost total = { path_total };

    ghost matches_partial_cmp = { Prim.search (comparing, rules) };

    ghost matches_eq = { path_ties };

    fn cmp(&self, other: &Path) -> Ordering {
        match self.base().cmp(&other.base()) {
            Ordering::Equal => compare_fields(self.fields(), other.fields()),
            order => order,
        }
    }
}

impl PartialOrd for Path {
    ghost partial_cmp = { as_partial_cmp path_cmp };

    ghost laws = { path_order };

    fn partial_cmp(&self, other: &Path) -> Option<Ordering> {
        Some(self.cmp(other))
    }
}
