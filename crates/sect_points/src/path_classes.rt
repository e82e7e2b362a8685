//! Classes of sites and of paths.

ghost use Rattle.std.specs.Prelude.{◌≡◌, ◌↔◌, ◌<◌, ◌≤◌, ℕ, List, Some, length, slice_get, slice_index, IfSome, IfNone};
ghost use Rattle.sect_lemmas.specs.Lists.{Has};
ghost use Rattle.sect_points.specs.declared.holders.ThreadAction.{ThreadAction};
ghost use Rattle.sect_points.specs.{declared.holders.Holder.TheVariants.{Slot}, Sites.{HasSite}, Flow.{IsClosed}};
ghost use Rattle.sect_points.specs.{Sets.{InSets}, Paths.{path_of, VariableHas, PathHas}};
ghost use Rattle.sect_points.specs.Partitions.{ClassesView, IsParted, HasClass};
ghost use Rattle.sect_points.specs.{Filled.{IsFilled, AreFilled, FieldHas}, PathClasses.{ArePathClasses, KeepsClasses}};

use crate::holders::{Holder, Variable};
use crate::rows::Rows;
use crate::sets::PointsTo;
use crate::sites::SiteSet;
use sect_types::{Field, MOST_FIELDS, MOST_SITES};
use std::marker::Model;

/// Points-to sets, and the classes of their sites: the finest partition that keeps together what one variable or one
/// field may hold. Classes are numbered from 0 by their least sites.
pub struct Classes {
    points: PointsTo,
    numbers: Vec<u16>,
    /// For each field, by its number, the sites that have something in it.
    filled: Rows,
}

impl Drop for Classes {
    fn drop(self) {
        let Classes {
            points: _,
            numbers: _,
            filled: _,
        } = self;
    }
}

impl Model for Classes {
    ghost use Rattle.std.specs.Prelude.{◌≤◌};
    ghost use Rattle.sect_types.specs.declared.declarations.limits.TheConstants.{MOST_SITES};
    ghost use Rattle.sect_points.specs.Partitions.{ClassesView, IsParted};
    ghost use Rattle.sect_points.specs.Filled.{AreFilled};

    ghost Value = { ClassesView };

    ghost view = { λ c. record { sets = c.points; numbers = c.numbers.items } };

    ghost invariant = { λ c. (c.points.sites ≤ MOST_SITES)
        × ∥ IsParted (record { sets = c.points; numbers = c.numbers.items }) ∥₁ × AreFilled c.points c.filled };
}

impl Classes {
    /// These sets, with the number of each site's class, and for each field the sites that have something in it.
    pub(crate) fn of(points: PointsTo, numbers: Vec<u16>, filled: Rows) -> Classes
        requires parted { IsParted (record { sets = points; numbers = numbers.items }) }
        requires filled { AreFilled points filled }
        ensures same { result ≡ record { sets = points; numbers = numbers.items } }
        ensures parted { IsParted result }
    {
        points.bounds();
        Classes {
            points,
            numbers,
            filled,
        }
    }

    /// What holds of the classes, which the clause says.
    pub fn parted(&self)
        ensures { IsParted self.now }
    {
        let _facts = &self.numbers;
    }

    /// The sets whose sites these are.
    pub fn points(&self) -> &PointsTo
        ensures { result.now ≡ self.now.sets }
    {
        &self.points
    }

    /// The number of each site's class.
    pub fn numbers(&self) -> &[u16]
        ensures { result.now ≡ self.now.numbers }
    {
        self.numbers.as_slice()
    }

    /// How many classes there are, at most 1,024: their numbers are those below it.
    pub fn class_count(&self) -> u16
        ensures below { (site : ℕ) → site < length self.now.numbers → slice_index self.now.numbers site < result }
        ensures each { (class : ℕ) → class < result → (site : ℕ) × (slice_get self.now.numbers site ≡ Some class) }
        ensures few { result ≤ MOST_SITES }
    {
        let mut count = 0;
        for number in self.numbers.as_slice() {
            if *number == count {
                count += 1;
            }
        }
        count
    }

    /// The class of a site.
    pub fn class_of_site(&self, site: u16) -> u16
        requires { site < length self.now.numbers }
        ensures { slice_get self.now.numbers site ≡ Some result }
    {
        self.numbers[site as usize]
    }

    /// The sites that have something in a field.
    fn filled_in(&self, field: u16) -> SiteSet
        ensures { (base : ℕ) → HasSite result.words base ↔ IsFilled self.now.sets base field }
    {
        self.filled.get(field as usize)
    }
}

/// The sites of a variable.
fn variable_sites(points: &PointsTo, base: Variable) -> SiteSet
    ensures { (site : ℕ) → HasSite result.words site
        ↔ (VariableHas (InSets points.now) base site × (site < points.now.sites)) }
{
    points.bounds();
    match base {
        Variable::Local(thread, local) => points.local_or_none(thread, local),
        Variable::Global(global) if global < points.sites() => SiteSet::of(global),
        Variable::Global(_) => SiteSet::new(),
    }
}

/// The sites of a field of all these sites. A field that isn't there has none.
fn field_sites(points: &PointsTo, bases: &SiteSet, field: u16) -> SiteSet
    ensures { (site : ℕ) → HasSite result.words site
        ↔ ((base : ℕ) × HasSite bases.now.words base × InSets points.now (Slot base field) site) }
{
    if field < MOST_FIELDS as u16 {
        points.gathered(bases, field)
    } else {
        SiteSet::new()
    }
}

/// The sites whose objects a path may denote: the path goes on from a variable by these fields.
pub fn path_sites(points: &PointsTo, base: Variable, fields: &[Field]) -> SiteSet
    ensures { (site : ℕ) → HasSite result.words site
        ↔ (PathHas (InSets points.now) (path_of base fields.now) site × (site < points.now.sites)) }
{
    points.bounds();
    let mut sites = variable_sites(points, base);
    for field in fields {
        sites = field_sites(points, &sites, field.number);
    }
    sites
}

/// A site of a field of one of these sites.
fn field_site(classes: &Classes, bases: &SiteSet, field: u16) -> Option<u16>
    ensures some { IfSome result (FieldHas classes.now.sets bases.now.words field) }
    ensures none { IfNone result ((site : ℕ) → FieldHas classes.now.sets bases.now.words field site → ⊥) }
{
    let points = classes.points();
    points.bounds();
    let base = bases.common(&classes.filled_in(field))?;
    points.first_in(base, field)
}

/// A site of the second of two fields of one of these sites.
fn second_field_site(classes: &Classes, bases: &SiteSet, first: u16, second: u16) -> Option<u16>
    ensures some { IfSome result (λ site. (middle : ℕ) × FieldHas classes.now.sets bases.now.words first middle
        × InSets classes.now.sets (Slot middle second) site) }
    ensures none { IfNone result ((middle site : ℕ) → FieldHas classes.now.sets bases.now.words first middle
        → InSets classes.now.sets (Slot middle second) site → ⊥) }
{
    let points = classes.points();
    points.bounds();
    let filled = classes.filled_in(first);
    let mut from = 0;
    while let Some(base) = bases.next_common(&filled, from) {
        let found = field_site(classes, &points.slot(base, first), second);
        if found.is_some() {
            return found;
        }
        from = base + 1;
    }
    None
}

/// A site of a variable.
fn variable_site(points: &PointsTo, base: Variable) -> Option<u16>
    ensures some { IfSome result (λ site. VariableHas (InSets points.now) base site × (site < points.now.sites)) }
    ensures none { IfNone result ((site : ℕ) → site < points.now.sites
        → VariableHas (InSets points.now) base site → ⊥) }
{
    points.bounds();
    match base {
        Variable::Local(thread, local) => points.first_of(Holder::Local(thread, local)),
        Variable::Global(global) if global < points.sites() => Some(global),
        Variable::Global(_) => None,
    }
}

/// The site of a path that is found where each step goes on from the least site alone.
fn leading_site(points: &PointsTo, base: Variable, fields: &[Field]) -> Option<u16>
    ensures { IfSome result (λ site. PathHas (InSets points.now) (path_of base fields.now) site
        × (site < points.now.sites)) }
{
    points.bounds();
    let mut site = variable_site(points, base)?;
    for field in fields {
        site = points.first_of(Holder::Slot(site, field.number))?;
    }
    Some(site)
}

/// A site of a path. Only the sites of what stands before its last two fields are gathered.
fn gathered_site(classes: &Classes, base: Variable, fields: &[Field]) -> Option<u16>
    ensures some { IfSome result (λ site. PathHas (InSets classes.now.sets) (path_of base fields.now) site
        × (site < classes.now.sets.sites)) }
    ensures none { IfNone result ((site : ℕ) → site < classes.now.sets.sites
        → PathHas (InSets classes.now.sets) (path_of base fields.now) site → ⊥) }
{
    classes.parted();
    let points = classes.points();
    match fields {
        [] => variable_sites(points, base).first(),
        [last] => field_site(classes, &variable_sites(points, base), last.number),
        [front @ .., next, last] => {
            let bases = path_sites(points, base, front);
            second_field_site(classes, &bases, next.number, last.number)
        }
    }
}

/// A site of a path. Mostly the least site of each step leads to one.
fn path_site(classes: &Classes, base: Variable, fields: &[Field]) -> Option<u16>
    ensures some { IfSome result (λ site. PathHas (InSets classes.now.sets) (path_of base fields.now) site
        × (site < classes.now.sets.sites)) }
    ensures none { IfNone result ((site : ℕ) → site < classes.now.sets.sites
        → PathHas (InSets classes.now.sets) (path_of base fields.now) site → ⊥) }
{
    match leading_site(classes.points(), base, fields) {
        Some(site) => Some(site),
        None => gathered_site(classes, base, fields),
    }
}

/// The class of a path: that of the sites whose objects it may denote. A path without such a site has none: where it
/// has a value, that is null.
pub fn class_of_path(classes: &Classes, base: Variable, fields: &[Field]) -> Option<u16>
    ensures some { IfSome result (HasClass classes.now (path_of base fields.now)) }
    ensures none { IfNone result ((site : ℕ) → site < classes.now.sets.sites
        → PathHas (InSets classes.now.sets) (path_of base fields.now) site → ⊥) }
{
    classes.parted();
    let site = path_site(classes, base, fields)?;
    Some(classes.class_of_site(site))
}

/// The laws of the classes of paths, which the clauses say: a path has one class or none, a field of a path without a
/// class has none, and one field of two paths of one class leads to one class; what a statement moves keeps its class.
pub fn laws_of_classes()
    ensures paths { (c : ClassesView) → IsParted c → ArePathClasses c }
    ensures statements { (c : ClassesView) (list : List ThreadAction) → IsParted c → IsClosed (InSets c.sets) list
        → (p : ThreadAction) → Has list p → KeepsClasses c p.thread p.action }
{}
