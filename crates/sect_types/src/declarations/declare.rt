//! A walk through the declarations.

ghost use Rattle.std.specs.Prelude.{◌≡◌, ◌≤◌, ◌<◌, ◌+◌, ◌++◌, ◌∷◌, [], ◌||◌, not, true, false, IfOk, OnOk, nat_le};
ghost use Rattle.std.specs.Prelude.{length};
ghost use Rattle.sect_types.specs.Sight.{has_name, names_of_records, names_of_globals, names_of_declared, all_fields};
ghost use Rattle.sect_types.specs.Items.{ARecord, record_items, field_items, global_items, local_items};
ghost use Rattle.sect_types.specs.Rules.{knows_kind as knows, declared_in};
ghost use Rattle.sect_types.specs.Limits.{most_fields, most_globals, most_locals, most_records};
ghost use Rattle.sect_types.specs.steps.Walks.{Walks, rule_in, declared_rule};
ghost use Rattle.sect_types.specs.steps.Declaring.{name_of, item_of, most_of, is_known as is_known_by};
ghost use Rattle.sect_types.specs.steps.Declaring.{is_taken as is_taken_by, behind, HasSite, IsToldOf};
ghost use Rattle.sect_types.specs.steps.{Listing.{Knows, all_known, fields_fine, globals_known}, Shown.{Shows}};

use crate::declarations::limits::{
    MOST_FIELDS, MOST_GLOBALS, MOST_LOCALS, MOST_PROCEDURES, MOST_RECORDS, MOST_THREADS,
};
use crate::declarations::names::{NameSet, Names};
use crate::declarations::shown::Shown;
use crate::rules::rule::{Rule, WalkFault};
use crate::rules::spot::{Spot, Uncounted};
use sect_front::{Declaration, GlobalObject, Kind, Name, Record, Tree};
use std::alloc::{AllocError, Global};

/// A declaration that is passed. Of a parameter or a local it is told whether a global has its name.
#[derive(Clone, Copy)]
pub enum Declared {
    Record(Name),
    Field(Declaration),
    Global(GlobalObject),
    Procedure(Name),
    Thread(Name),
    Local(Declaration, bool),
}

impl Declared {
    /// Its name.
    fn name(&self) -> Name
        ensures { result ≡ name_of self.now }
    {
        match self {
            Declared::Record(name) | Declared::Procedure(name) | Declared::Thread(name) => *name,
            Declared::Field(field) => field.name,
            Declared::Global(global) => global.name,
            Declared::Local(local, _) => local.name,
        }
    }

    /// How many of its kind one list may have.
    fn most(&self) -> usize
        ensures { result ≡ most_of self.now }
    {
        match self {
            Declared::Record(_) => MOST_RECORDS,
            Declared::Field(_) => MOST_FIELDS,
            Declared::Global(_) => MOST_GLOBALS,
            Declared::Procedure(_) => MOST_PROCEDURES,
            Declared::Thread(_) => MOST_THREADS,
            Declared::Local(_, _) => MOST_LOCALS,
        }
    }

    /// Whether the type that it names is known.
    fn is_known(&self, tree: &Tree, known: &NameSet) -> bool
        requires { Knows known.now tree.now.records }
        ensures { result ≡ is_known_by (names_of_records tree.now.records) self.now }
    {
        match self {
            Declared::Field(field) => knows_kind(tree, known, &field.kind),
            Declared::Global(global) => known.has(&global.of),
            Declared::Local(local, _) => knows_kind(tree, known, &local.kind),
            Declared::Record(_) | Declared::Procedure(_) | Declared::Thread(_) => true,
        }
    }

    /// Whether a global has its name, which only variables mind.
    fn is_taken(&self) -> bool
        ensures { result ≡ is_taken_by self.now }
    {
        match self {
            Declared::Local(_, taken) => *taken,
            _ => false,
        }
    }

    /// Counts it.
    fn count(&self, spot: &mut Spot) -> Result<(), Uncounted>
        requires { HasSite spot.old self.now }
        ensures { OnOk result (spot.new ≡ behind self.now spot.old) }
    {
        match self {
            Declared::Global(_) => spot.pass_global(),
            _ => spot.pass_item(),
        }
    }
}

/// The least rule that a declaration breaks behind these names, if any.
fn judge_declared(names: &Names, declared: &Declared, known: bool) -> Result<(), Rule>
    ensures known { OnOk result (known ≡ true) }
    ensures new { OnOk result (has_name (name_of declared.now) names.now ≡ false) }
    ensures few { OnOk result (length names.now < most_of declared.now) }
    ensures rule { rule_in result
        ≡ declared_rule (not known) (has_name (name_of declared.now) names.now || is_taken_by declared.now)
        (nat_le (most_of declared.now) (length names.now)) }
{
    if !known {
        return Err(Rule::Unknown);
    }
    if names.has(&declared.name()) || declared.is_taken() {
        return Err(Rule::Twice);
    }
    if names.len() >= declared.most() {
        return Err(Rule::TooMany);
    }
    Ok(())
}

fn knows_kind(tree: &Tree, known: &NameSet, kind: &Kind) -> bool
    requires { Knows known.now tree.now.records }
    ensures { result ≡ knows (names_of_records tree.now.records) kind.now }
{
    match kind {
        Kind::Int => true,
        Kind::Record(name) => known.has(name),
    }
}

/// Passes a declaration behind these names, and adds its name.
pub fn pass(
    tree: &Tree,
    known: &NameSet,
    names: &mut Names,
    spot: &mut Spot,
    declared: Declared,
) -> Result<(), WalkFault>
    requires known { Knows known.now tree.now.records }
    requires told { IsToldOf tree.now spot.old declared }
    ensures walks { Walks (declared_in tree.now) (λ w. item_of declared names.old ∷ w) spot.old spot.new result }
    ensures names { OnOk result (names.new ≡ names.old ++ name_of declared ∷ []) }
    ensures counts { OnOk result (spot.new ≡ behind declared spot.old) }
    ensures few { OnOk result (length names.old < most_of declared) }
    ensures known { OnOk result (is_known_by (names_of_records tree.now.records) declared ≡ true) }
{
    let known = declared.is_known(tree, known);
    match judge_declared(names, &declared, known) {
        Ok(()) => {
            names.add(declared.name())?;
            declared.count(spot)?;
            Ok(())
        }
        Err(rule) => Err(WalkFault::Broken(spot.item(), rule)),
    }
}

/// The names of the fields of a record.
pub fn fields(
    alloc: Global,
    tree: &Tree,
    known: &NameSet,
    spot: &mut Spot,
    list: &[Declaration],
) -> Result<Names, WalkFault>
    requires known { Knows known.now tree.now.records }
    ensures walks { Walks (declared_in tree.now) (field_items [] list.now)
        spot.old spot.new result }
    ensures names { IfOk result (λ names. names ≡ names_of_declared list.now) }
    ensures sites { OnOk result (spot.new.sites ≡ spot.old.sites) }
    ensures few { OnOk result (length list.now ≤ most_fields) }
    ensures known { OnOk result (all_known (names_of_records tree.now.records) list.now ≡ true) }
{
    let mut names = Names::with_room(alloc, list.len())?;
    for field in list {
        pass(tree, known, &mut names, spot, Declared::Field(*field))?;
    }
    Ok(names)
}

/// The names of all records.
pub fn known_records(alloc: Global, tree: &Tree) -> Result<NameSet, AllocError>
    ensures { IfOk result (λ known. Knows known tree.now.records) }
{
    let mut known = NameSet::new(alloc);
    for of in tree.records() {
        known.collect(of.name)?;
    }
    Ok(known)
}

fn whole_record(
    alloc: Global,
    tree: &Tree,
    known: &NameSet,
    names: &mut Names,
    spot: &mut Spot,
    of: &Record,
) -> Result<Names, WalkFault>
    requires known { Knows known.now tree.now.records }
    ensures walks { Walks (declared_in tree.now) (λ w. ARecord of.now.name names.old
        ∷ field_items [] of.now.fields w) spot.old spot.new result }
    ensures names { OnOk result (names.new ≡ names.old ++ of.now.name ∷ []) }
    ensures fields { IfOk result (λ inner. inner ≡ names_of_declared of.now.fields) }
    ensures sites { OnOk result (spot.new.sites ≡ spot.old.sites) }
    ensures few { OnOk result (length names.old < most_records) }
    ensures few_fields { OnOk result (length of.now.fields ≤ most_fields) }
    ensures known_fields { OnOk result (all_known (names_of_records tree.now.records)
        of.now.fields ≡ true) }
{
    pass(tree, known, names, spot, Declared::Record(of.name))?;
    fields(alloc, tree, known, spot, of.fields.as_slice())
}

/// The names of the records and of their fields.
pub fn records(
    alloc: Global,
    tree: &Tree,
    known: &NameSet,
    spot: &mut Spot,
) -> Result<(Names, Vec<Names>), WalkFault>
    requires known { Knows known.now tree.now.records }
    ensures walks { Walks (declared_in tree.now) (record_items [] tree.now.records)
        spot.old spot.new result }
    ensures names { IfOk result (λ r. r.0 ≡ names_of_records tree.now.records) }
    ensures fields { IfOk result (λ r. r.1.items ≡ all_fields tree.now.records) }
    ensures sites { OnOk result (spot.new.sites ≡ spot.old.sites) }
    ensures few { OnOk result (length tree.now.records ≤ most_records) }
    ensures fine { OnOk result (fields_fine (names_of_records tree.now.records) tree.now.records
        ≡ true) }
{
    let mut names = Names::with_room(alloc, tree.records().len())?;
    let mut field_names = Vec::new(alloc);
    for of in tree.records() {
        match whole_record(alloc, tree, known, &mut names, spot, of) {
            Ok(inner) => field_names.push(inner)?,
            Err(fault) => return Err(fault),
        }
    }
    Ok((names, field_names))
}

/// The names of the globals.
pub fn globals(
    alloc: Global,
    tree: &Tree,
    known: &NameSet,
    spot: &mut Spot,
) -> Result<Names, WalkFault>
    requires known { Knows known.now tree.now.records }
    requires start { spot.old.sites ≡ 0 }
    ensures walks { Walks (declared_in tree.now) (global_items [] tree.now.globals)
        spot.old spot.new result }
    ensures names { IfOk result (λ names. names ≡ names_of_globals tree.now.globals) }
    ensures sites { OnOk result (spot.new.sites ≡ length tree.now.globals) }
    ensures few { OnOk result (length tree.now.globals ≤ most_globals) }
    ensures known { OnOk result (globals_known (names_of_records tree.now.records)
        tree.now.globals ≡ true) }
{
    let mut names = Names::with_room(alloc, tree.globals().len())?;
    for global in tree.globals() {
        pass(tree, known, &mut names, spot, Declared::Global(*global))?;
    }
    Ok(names)
}

/// The names of the locals of a thread.
pub fn locals(
    alloc: Global,
    tree: &Tree,
    shown: &Shown,
    spot: &mut Spot,
    list: &[Declaration],
) -> Result<Names, WalkFault>
    requires { Shows shown.now tree.now }
    ensures walks { Walks (declared_in tree.now) (local_items [] list.now)
        spot.old spot.new result }
    ensures names { IfOk result (λ names. names ≡ names_of_declared list.now) }
    ensures few { OnOk result (length list.now ≤ most_locals) }
    ensures known { OnOk result (all_known (names_of_records tree.now.records) list.now ≡ true) }
{
    let mut names = Names::with_room(alloc, list.len())?;
    for local in list {
        let taken = shown.global_names.has(&local.name);
        let declared = Declared::Local(*local, taken);
        pass(tree, &shown.known, &mut names, spot, declared)?;
    }
    Ok(names)
}
