//! The least sets: what grew is moved on by the statements that read it, until nothing grows.

ghost use Rattle.std.specs.Prelude.{◌≡◌, ◌↔◌, ◌≤◌, ◌<◌, ℕ, length, true, false};
ghost use Rattle.sect_points.specs.{Sites.{HasSite}, Flow.{ValueHas, BaseHas, Within, IsLeastFlow}};
ghost use Rattle.sect_points.specs.Sets.{PointsToView, InSets, IsEmpty, HasSet, SameHolders, sets_room, sites_for};
ghost use Rattle.sect_points.specs.Sets.{spread_to, AreSitesOf, AreBelow, Adds};
ghost use Rattle.sect_points.specs.declared.holders.ThreadAction.{ThreadAction};
ghost use Rattle.sect_points.specs.declared.holders.Holder.{Holder};
ghost use Rattle.sect_points.specs.declared.holders.Holder.TheVariants.{Local, Slot};
ghost use Rattle.sect_points.specs.steps.Solving.{FitsValue, FitsBase, FitsAction, AllFit};
ghost use Rattle.sect_points.specs.steps.Marks.{Suits, Grows, AreBases, IsBase, MovedBy, IsOnlyBase, IsThere};
ghost use Rattle.sect_points.specs.steps.Marks.{IsUntouched, grown, Covers, Handles, IsStretch, IsGoing, IsLeft};
ghost use Rattle.sect_points.specs.steps.Marks.{IsSpan, HasMark, local_row, Waits};
ghost use Rattle.sect_lemmas.specs.Lists.{Has};

use crate::holders::{Growth, Holder, ThreadAction};
use crate::marks::{LOCAL_ROWS, Marks};
use crate::readers::Readers;
use crate::sets::PointsTo;
use crate::sites::SiteSet;
use sect_types::{Action, Base, MOST_FIELDS, MOST_SITES, MOST_THREADS, Value};

/// The sites of a value.
fn value_sites(sets: &PointsTo, thread: u16, value: Value) -> SiteSet
    requires fits { FitsValue sets.now thread value }
    requires most { sets.now.sites ≤ MOST_SITES }
    ensures sites { (site : ℕ) → HasSite result.words site ↔ ValueHas (InSets sets.now) thread value site }
    ensures below { AreSitesOf sets.now result.words }
{
    sets.bounds();
    match value {
        Value::Local(local) => sets.local(thread, local),
        Value::Global(global) => SiteSet::of(global),
        Value::Null | Value::Number(_) => SiteSet::new(),
    }
}

/// The sites of a base.
pub fn base_sites(sets: &PointsTo, thread: u16, base: Base) -> SiteSet
    requires fits { FitsBase sets.now thread base }
    requires most { sets.now.sites ≤ MOST_SITES }
    ensures { (site : ℕ) → HasSite result.words site ↔ BaseHas (InSets sets.now) thread base site }
{
    match base {
        Base::Local(local) => sets.local(thread, local),
        Base::Global(global) => SiteSet::of(global),
    }
}

/// Adds sites to a holder's set, and marks it where there were new ones.
fn add(sets: &mut PointsTo, holder: Holder, sites: &SiteSet, marks: &mut Marks) -> bool
    requires place { HasSet sets.old holder }
    requires sites { AreSitesOf sets.old sites.now.words }
    requires suits { Suits sets.old marks.old }
    ensures { Grows sets.old sets.new (sites_for holder sites.now.words) marks.old marks.new result }
{
    let grew = sets.join(holder, sites);
    if grew {
        marks.mark(holder);
    }
    grew
}

/// Adds the sites of a value to a local's set, and tells whether there were new ones.
fn join_value(sets: &mut PointsTo, thread: u16, target: u16, value: Value) -> bool
    requires place { HasSet sets.old (Local thread target) }
    requires fits { FitsValue sets.old thread value }
    requires most { sets.old.sites ≤ MOST_SITES }
    ensures { Adds sets.old sets.new
        (λ h s. (h ≡ Local thread target) × ValueHas (InSets sets.old) thread value s) result }
{
    match value {
        Value::Local(local) => sets.join_other(thread, target, local),
        Value::Global(global) => sets.add_local(thread, target, global),
        Value::Null | Value::Number(_) => false,
    }
}

/// Adds the sites of a value to a local's set, and marks it where there were new ones.
fn assign(sets: &mut PointsTo, thread: u16, target: u16, value: Value, marks: &mut Marks) -> bool
    requires place { HasSet sets.old (Local thread target) }
    requires fits { FitsValue sets.old thread value }
    requires most { sets.old.sites ≤ MOST_SITES }
    requires suits { Suits sets.old marks.old }
    ensures { Grows sets.old sets.new
        (λ h s. (h ≡ Local thread target) × ValueHas (InSets sets.old) thread value s) marks.old marks.new result }
{
    let grew = join_value(sets, thread, target, value);
    if grew {
        marks.mark(Holder::Local(thread, target));
    }
    grew
}

/// Adds sites to a field of all these sites, and marks what grew.
fn spread(
    sets: &mut PointsTo,
    bases: &SiteSet,
    field: u16,
    sites: &SiteSet,
    marks: &mut Marks,
) -> bool
    requires field { field < MOST_FIELDS }
    requires bases { AreSitesOf sets.old bases.now.words }
    requires sites { AreSitesOf sets.old sites.now.words }
    requires suits { Suits sets.old marks.old }
    ensures { Grows sets.old sets.new (spread_to bases.now.words field sites.now.words) marks.old marks.new result }
{
    sets.bounds();
    let mut grew = false;
    let mut from = 0;
    while let Some(base) = bases.next(from) {
        grew = add(sets, Holder::Slot(base, field), sites, marks) || grew;
        from = base + 1;
    }
    grew
}

/// The bases of a load or a store.
fn all_bases(sets: &PointsTo, placed: ThreadAction) -> SiteSet
    requires fits { FitsAction sets.now placed.thread placed.action }
    requires most { sets.now.sites ≤ MOST_SITES }
    ensures { (site : ℕ) → HasSite result.words site ↔ IsBase (InSets sets.now) placed.thread placed.action site }
{
    match placed.action {
        Action::Load(_, base, _) => base_sites(sets, placed.thread, base),
        Action::Store(base, _, _) => base_sites(sets, placed.thread, base),
        Action::Assign(_, _)
        | Action::New(_, _, _)
        | Action::Compute(_, _, _, _)
        | Action::Print(_) => SiteSet::new(),
    }
}

/// Moves what a statement moves by these of its bases, marks what grew, and tells whether some set grew.
fn turn(sets: &mut PointsTo, placed: ThreadAction, bases: &SiteSet, marks: &mut Marks) -> bool
    requires fits { FitsAction sets.old placed.thread placed.action }
    requires most { sets.old.sites ≤ MOST_SITES }
    requires suits { Suits sets.old marks.old }
    requires bases { AreBases (InSets sets.old) placed bases.now.words }
    ensures { Grows sets.old sets.new
        (MovedBy (InSets sets.old) bases.now.words placed.thread placed.action) marks.old marks.new result }
{
    sets.bounds();
    let thread = placed.thread;
    match placed.action {
        Action::Assign(target, value) => assign(sets, thread, target, value, marks),
        Action::New(target, _, site) => {
            add(
                sets,
                Holder::Local(thread, target),
                &SiteSet::of(site),
                marks,
            )
        }
        Action::Load(target, base, field) => {
            let _facts = base;
            let sites = sets.gathered(bases, field.number);
            add(sets, Holder::Local(thread, target), &sites, marks)
        }
        Action::Store(base, field, value) => {
            let _facts = base;
            let sites = value_sites(sets, thread, value);
            spread(sets, bases, field.number, &sites, marks)
        }
        Action::Compute(_, _, _, _) | Action::Print(_) => false,
    }
}

/// Whether a statement reads a local as its base alone.
fn is_base_alone(placed: ThreadAction, growth: Growth) -> bool
    ensures { result ≡ true → IsOnlyBase placed growth }
{
    let Growth::Local(thread, local) = growth else {
        return false;
    };
    if placed.thread != thread {
        return false;
    }
    match placed.action {
        Action::Load(_, Base::Local(base), _) => base == local,
        Action::Store(Base::Local(base), _, Value::Local(value)) => base == local && value != local,
        Action::Store(Base::Local(base), _, Value::Global(_)) => base == local,
        _ => false,
    }
}

/// The bases by which a statement moves what grew. Where it reads a local's growth as its base alone, those are new.
fn bases_of(sets: &PointsTo, placed: &ThreadAction, growth: Growth, new: &SiteSet) -> SiteSet
    requires fits { FitsAction sets.now placed.now.thread placed.now.action }
    requires most { sets.now.sites ≤ MOST_SITES }
    requires there { IsThere growth new.now.words sets.now }
    ensures bases { AreBases (InSets sets.now) placed.now result.words }
    ensures covers { Covers sets.now (grown growth new.now.words) placed.now result.words }
{
    let alone = is_base_alone(*placed, growth);
    let bases = all_bases(sets, *placed);
    if alone {
        return new.both(new);
    }
    match growth {
        Growth::Field(_) => bases.both(new),
        Growth::Local(_, _) => bases,
    }
}

/// Whether a base has one of these sites.
fn base_meets(sets: &PointsTo, thread: u16, base: Base, sites: &SiteSet) -> bool
    requires fits { FitsBase sets.now thread base }
    requires most { sets.now.sites ≤ MOST_SITES }
    ensures { result ≡ false →
        (site : ℕ) → BaseHas (InSets sets.now) thread base site → HasSite sites.now.words site → ⊥ }
{
    match base {
        Base::Local(local) => sets.local_meets(thread, local, sites),
        Base::Global(global) => sites.contains(global),
    }
}

/// Whether a field of these sites grew, and a statement loads from others alone.
fn is_untouched(sets: &PointsTo, placed: &ThreadAction, growth: Growth, new: &SiteSet) -> bool
    requires fits { FitsAction sets.now placed.now.thread placed.now.action }
    requires most { sets.now.sites ≤ MOST_SITES }
    ensures { result ≡ true → IsUntouched sets.now placed.now growth new.now.words }
{
    match growth {
        Growth::Local(_, _) => false,
        Growth::Field(_) => match placed.action {
            Action::Load(_, base, _) => !base_meets(sets, placed.thread, base, new),
            _ => false,
        },
    }
}

/// Moves on what grew.
fn pass(
    sets: &mut PointsTo,
    readers: &Readers,
    growth: Growth,
    new: &SiteSet,
    marks: &mut Marks,
) -> bool
    requires fits { AllFit sets.old readers.now }
    requires most { sets.old.sites ≤ MOST_SITES }
    requires suits { Suits sets.old marks.old }
    requires there { IsThere growth new.now.words sets.old }
    ensures stretch { IsStretch readers.now sets.old sets.new marks.old marks.new result }
    ensures handled { (p : ThreadAction) → Has readers.now p
        → Handles sets.old sets.new (grown growth new.now.words) p }
{
    let mut grew = false;
    for placed in readers.of_growth(growth) {
        if is_untouched(sets, placed, growth, new) {
            continue;
        }
        let bases = bases_of(sets, placed, growth, new);
        grew = turn(sets, *placed, &bases, marks) || grew;
    }
    grew
}

/// Moves on what a local has got.
fn carry_local(
    sets: &mut PointsTo,
    moved: &mut PointsTo,
    readers: &Readers,
    thread: u16,
    local: u16,
    marks: &mut Marks,
) -> bool
    requires fits { AllFit sets.old readers.now }
    requires most { sets.old.sites ≤ MOST_SITES }
    requires going { IsGoing readers.now sets.old moved.old marks.old }
    ensures stretch { IsStretch readers.now sets.old sets.new marks.old marks.new result }
    ensures going { IsGoing readers.now sets.new moved.new marks.new }
    ensures more { Within (InSets moved.old) (InSets moved.new) }
    ensures here { (site : ℕ) → InSets sets.old (Local thread local) site → InSets moved.new (Local thread local) site }
{
    let new = sets.rest(moved, thread, local);
    if new.first().is_none() {
        return false;
    }
    moved.join_from(sets, thread, local);
    pass(sets, readers, Growth::Local(thread, local), &new, marks)
}

/// Moves on what the locals of a row of marks have got.
fn carry_locals(
    sets: &mut PointsTo,
    moved: &mut PointsTo,
    readers: &Readers,
    row: u16,
    marks: &mut Marks,
) -> bool
    requires fits { AllFit sets.old readers.now }
    requires most { sets.old.sites ≤ MOST_SITES }
    requires going { IsGoing readers.now sets.old moved.old marks.old }
    requires left { IsLeft sets.old moved.old marks.old (λ h. ⊥) }
    ensures span { IsSpan sets.old sets.new marks.old marks.new result }
    ensures going { IsGoing readers.now sets.new moved.new marks.new }
    ensures left { IsLeft sets.new moved.new marks.new (λ h. ⊥) }
    ensures gone { result ≡ false → (thread local : ℕ) → local_row thread local ≡ row
        → HasMark marks.new (Local thread local) → ⊥ }
{
    if marks.is_bare(row) {
        return false;
    }
    let grown = marks.take_locals(row);
    let mut grew = false;
    let mut from = 0;
    while let Some(at) = grown.next(from) {
        let local = row % LOCAL_ROWS * MOST_SITES + at;
        grew = carry_local(sets, moved, readers, row / LOCAL_ROWS, local, marks) || grew;
        from = at + 1;
    }
    grew
}

/// Moves on what the locals of a row of marks have got, and then what they get by that, until they get nothing. A value
/// mostly goes from local to local in one thread.
fn settle_locals(
    sets: &mut PointsTo,
    moved: &mut PointsTo,
    readers: &Readers,
    row: u16,
    marks: &mut Marks,
) -> bool
    requires fits { AllFit sets.old readers.now }
    requires most { sets.old.sites ≤ MOST_SITES }
    requires going { IsGoing readers.now sets.old moved.old marks.old }
    requires left { IsLeft sets.old moved.old marks.old (λ h. ⊥) }
    ensures span { IsSpan sets.old sets.new marks.old marks.new result }
    ensures going { IsGoing readers.now sets.new moved.new marks.new }
    ensures left { IsLeft sets.new moved.new marks.new (λ h. ⊥) }
    ensures gone { result ≡ false → (thread local : ℕ) → local_row thread local ≡ row
        → HasMark marks.new (Local thread local) → ⊥ }
{
    let mut grew = false;
    while carry_locals(sets, moved, readers, row, marks) {
        grew = true;
    }
    grew
}

/// Moves on what a field of the marked sites has got.
fn carry_field(
    sets: &mut PointsTo,
    moved: &mut PointsTo,
    readers: &Readers,
    field: u16,
    marks: &mut Marks,
) -> bool
    requires field { field < MOST_FIELDS }
    requires fits { AllFit sets.old readers.now }
    requires most { sets.old.sites ≤ MOST_SITES }
    requires going { IsGoing readers.now sets.old moved.old marks.old }
    requires left { IsLeft sets.old moved.old marks.old (λ h. ⊥) }
    ensures span { IsSpan sets.old sets.new marks.old marks.new result }
    ensures going { IsGoing readers.now sets.new moved.new marks.new }
    ensures left { IsLeft sets.new moved.new marks.new (λ h. ⊥) }
    ensures gone { result ≡ false → (base : ℕ) → HasMark marks.new (Slot base field) → ⊥ }
{
    let grown = marks.take_slots(field);
    if grown.first().is_none() {
        return false;
    }
    sets.bounds();
    let mut from = 0;
    while let Some(base) = grown.next(from) {
        if base < sets.sites() {
            moved.join_slot_from(sets, base, field);
        }
        from = base + 1;
    }
    pass(sets, readers, Growth::Field(field), &grown, marks)
}

/// Moves on all that grew, and tells whether some set grew by that.
fn round(sets: &mut PointsTo, moved: &mut PointsTo, readers: &Readers, marks: &mut Marks) -> bool
    requires fits { AllFit sets.old readers.now }
    requires most { sets.old.sites ≤ MOST_SITES }
    requires few { length sets.old.locals ≤ MOST_THREADS }
    requires going { IsGoing readers.now sets.old moved.old marks.old }
    requires left { IsLeft sets.old moved.old marks.old (λ h. ⊥) }
    ensures going { IsGoing readers.now sets.new moved.new marks.new }
    ensures left { IsLeft sets.new moved.new marks.new (λ h. ⊥) }
    ensures places { SameHolders sets.old sets.new }
    ensures less { result ≡ true → sets_room sets.new < sets_room sets.old }
    ensures still { result ≡ false → Within (InSets sets.new) (InSets moved.new) }
{
    let mut grew = false;
    let rows = sets.locals().len() as u16 * LOCAL_ROWS;
    for row in 0..rows {
        grew = settle_locals(sets, moved, readers, row, marks) || grew;
    }
    for field in 0..MOST_FIELDS as u16 {
        grew = carry_field(sets, moved, readers, field, marks) || grew;
    }
    grew
}

/// Whether a value has no site where no set has one.
fn is_of_sets(value: Value) -> bool
    ensures { result ≡ true → (sets : PointsToView) → IsEmpty sets → (thread site : ℕ)
        → ValueHas (InSets sets) thread value site → ⊥ }
{
    match value {
        Value::Global(_) => false,
        Value::Local(_) | Value::Null | Value::Number(_) => true,
    }
}

/// Whether a base has no site where no set has one.
fn is_base_of_sets(base: Base) -> bool
    ensures { result ≡ true → (sets : PointsToView) → IsEmpty sets → (thread site : ℕ)
        → BaseHas (InSets sets) thread base site → ⊥ }
{
    match base {
        Base::Global(_) => false,
        Base::Local(_) => true,
    }
}

/// Whether a statement moves nothing where no set has a site.
fn waits(placed: &ThreadAction) -> bool
    ensures { result ≡ true → Waits placed.now }
{
    match placed.action {
        Action::Assign(_, value) => is_of_sets(value),
        Action::Load(_, _, _) => true,
        Action::Store(base, _, _) => is_base_of_sets(base),
        _ => false,
    }
}

/// Moves what the statements move until nothing grows: from empty sets, the least that are closed. A statement that
/// waits for others is run once what it reads has grown.
pub fn close(sets: &mut PointsTo, moved: &mut PointsTo, readers: &Readers, marks: &mut Marks)
    requires fits { AllFit sets.old readers.now }
    requires empty { IsEmpty sets.old }
    requires unmoved { IsEmpty moved.old }
    requires same { SameHolders sets.old moved.old }
    requires most { sets.old.sites ≤ MOST_SITES }
    requires few { length sets.old.locals ≤ MOST_THREADS }
    requires suits { Suits sets.old marks.old }
    ensures least { IsLeastFlow (InSets sets.new) readers.now }
    ensures below { AreBelow sets.new }
    ensures places { SameHolders sets.old sets.new }
{
    for placed in readers.all() {
        if waits(placed) {
            continue;
        }
        let bases = all_bases(sets, *placed);
        turn(sets, *placed, &bases, marks);
    }
    while round(sets, moved, readers, marks) {}
}
