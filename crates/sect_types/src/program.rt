//! Typed programs.

ghost use Rattle.std.specs.Prelude.{IsOkUnless, Err, IfErr, ℕ, ◌≡◌, ◌≤◌, ◌<◌, ◌+◌, ◌++◌, ◌∷◌, [], true, false, IfOk};
ghost use Rattle.std.specs.Prelude.{OnOk, Some, length, map, slice_get, slice_index_or};
ghost use Rattle.sect_front.specs.{Depth.{block_depth, procedures_depth, threads_depth}, Limits.{most_depth}};
ghost use Rattle.sect_types.specs.Limits.{most_locals, most_procedures, most_records, most_globals, most_sections};
ghost use Rattle.sect_types.specs.Limits.{most_sites, most_statements, most_threads};
ghost use Rattle.sect_types.specs.Sight.{names_of_records, names_of_declared};
ghost use Rattle.sect_types.specs.Items.{AProcedure, AThread, variables as variables_by, record_items, global_items};
ghost use Rattle.sect_types.specs.Items.{local_items, block_items, procedure_items, thread_items};
ghost use Rattle.sect_types.specs.{declared.rules.place.Place.TheVariants.{InThread, InProcedure}, Rules.{declared_in}};
ghost use Rattle.sect_types.specs.{Sound.{IsSound, AreSound}, declared.rules.rule.TypeFault.TheVariants.{Memory}};
ghost use Rattle.sect_types.specs.{Sections.{sections_of, AllNumbered, AllSited, section_shown}, Expanded.{fresh_in}};
ghost use Rattle.sect_types.specs.{LocalNames.{all_local_names}, First.{Judges, none_yet, IsTyped}};
ghost use Rattle.sect_types.specs.Programs.{IsWellNumbered, IsWithinLimits, AreRecordsThere, IsOfTree, environment_at};
ghost use Rattle.sect_types.specs.Programs.{numbered_by, sites_of, total_statements};
ghost use Rattle.sect_types.specs.steps.{Walks.{Walks}, Listing.{all_known, fields_fine, globals_known, locals_fine}};
ghost use Rattle.sect_types.specs.steps.{Shown.{Shows}, Contexts.{IsContext}};
ghost use Rattle.sect_types.specs.steps.Threads.{variables_shown, variables_fine, local_names as names_of_locals};
ghost use Rattle.sect_types.specs.steps.Counted.{IsCounted};

use crate::counting::section::{Section, find};
use crate::counting::sums::table;
use crate::declarations::declare::{Declared, globals, known_records, locals, pass, records};
use crate::declarations::local_name::LocalName;
use crate::declarations::names::Names;
use crate::declarations::shown::Shown;
use crate::declarations::types::{ValueType, field_types, global_records, local_types};
use crate::declarations::variables::{Variables, all_of};
use crate::expansion::expand::{Fresh, Setting, expand};
use crate::expansion::locking::lockings;
use crate::expansion::text::Text;
use crate::rules::called::Called;
use crate::rules::place::Standing;
use crate::rules::rule::{TypeFault, WalkFault};
use crate::rules::scope::Scope;
use crate::rules::spot::Spot;
use crate::rules::walk::walk_block;
use sect_front::{Items, Locking, Procedure, Thread, Tree, is_same};
use std::alloc::{AllocError, Global};
use std::marker::Model;

/// A tree, the names that all its procedures and threads see, and its procedures by name.
#[derive(Drop)]
struct Context<'a> {
    alloc: Global,
    tree: &'a Tree,
    shown: &'a Shown,
    called: &'a Called<'a>,
}

/// Judges the declarations of records and globals, and gives the names that all procedures and threads see.
fn declarations(alloc: Global, tree: &Tree, spot: &mut Spot) -> Result<Shown, WalkFault>
    requires { spot.old ≡ none_yet }
    ensures walks { Walks (declared_in tree.now)
        (λ w. record_items [] tree.now.records (global_items [] tree.now.globals w)) spot.old spot.new result }
    ensures shown { IfOk result (λ shown. Shows shown tree.now) }
    ensures few_records { OnOk result (length tree.now.records ≤ most_records) }
    ensures fine_fields { OnOk result (fields_fine (names_of_records tree.now.records) tree.now.records ≡ true) }
    ensures few_globals { OnOk result (length tree.now.globals ≤ most_globals) }
    ensures known_globals { OnOk result (globals_known (names_of_records tree.now.records) tree.now.globals ≡ true) }
{
    let known = known_records(alloc, tree)?;
    let (record_names, field_names) = records(alloc, tree, &known, spot)?;
    let global_names = globals(alloc, tree, &known, spot)?;
    Ok(Shown {
        known,
        record_names,
        field_names,
        global_names,
    })
}

/// Judges the variables of a procedure, and gives them with their names.
fn pass_variables(
    context: &Context<'_>,
    spot: &mut Spot,
    procedure: &Procedure,
) -> Result<Variables, WalkFault>
    requires context { IsContext context.now }
    ensures walks { Walks (declared_in context.now.tree.now) (local_items [] (variables_by procedure.now))
        spot.old spot.new result }
    ensures shown { IfOk result (λ v. v ≡ variables_shown procedure.now) }
    ensures few { OnOk result (length (variables_by procedure.now) ≤ most_locals) }
    ensures known { OnOk result (all_known (names_of_records context.now.tree.now.records)
        (variables_by procedure.now) ≡ true) }
{
    let list = all_of(context.alloc, procedure)?;
    let names = locals(
        context.alloc,
        context.tree,
        context.shown,
        spot,
        list.as_slice(),
    )?;
    Ok(Variables::new(list, names))
}

/// Passes the body of the procedure of this number, which has these variables.
fn walk_procedure(
    context: &Context<'_>,
    number: usize,
    variables: &Variables,
    spot: &mut Spot,
    procedure: &Procedure,
) -> Result<(), WalkFault>
    requires context { IsContext context.now }
    requires there { number < length context.now.tree.now.procedures }
    requires variables { variables.now ≡ variables_shown procedure.now }
    requires shallow { block_depth procedure.now.body ≤ most_depth }
    ensures { Walks (declared_in context.now.tree.now) (block_items (variables_by procedure.now)
        (InProcedure number) procedure.now.body) spot.old spot.new result }
{
    let returning = context.called.returning(context.alloc, number)?;
    let standing = Standing::in_procedure(context.called, number, returning.as_slice());
    let list = variables.as_slice();
    let scope = Scope::new(context.tree, context.shown, list, variables.names());
    walk_block(&scope, spot, &standing, &procedure.body)
}

/// Judges a procedure, and gives its variables with their names.
fn pass_procedure(
    context: &Context<'_>,
    names: &mut Names,
    spot: &mut Spot,
    procedure: &Procedure,
) -> Result<Variables, WalkFault>
    requires context { IsContext context.now }
    requires there { length names.old < length context.now.tree.now.procedures }
    requires shallow { block_depth procedure.now.body ≤ most_depth }
    ensures walks { Walks (declared_in context.now.tree.now) (λ w. AProcedure procedure.now.name names.old
        ∷ local_items [] (variables_by procedure.now) (block_items (variables_by procedure.now)
        (InProcedure (length names.old)) procedure.now.body w)) spot.old spot.new result }
    ensures names { OnOk result (names.new ≡ names.old ++ procedure.now.name ∷ []) }
    ensures shown { IfOk result (λ v. v ≡ variables_shown procedure.now) }
    ensures few { OnOk result (length names.old < most_procedures) }
    ensures few_variables { OnOk result (length (variables_by procedure.now) ≤ most_locals) }
    ensures known_variables { OnOk result (all_known (names_of_records context.now.tree.now.records)
        (variables_by procedure.now) ≡ true) }
{
    let number = names.len();
    let declared = Declared::Procedure(procedure.name);
    pass(context.tree, &context.shown.known, names, spot, declared)?;
    let variables = pass_variables(context, spot, procedure)?;
    walk_procedure(context, number, &variables, spot, procedure)?;
    Ok(variables)
}

/// Judges all procedures, and gives the variables of each with their names.
fn procedures(context: &Context<'_>, spot: &mut Spot) -> Result<Vec<Variables>, WalkFault>
    requires context { IsContext context.now }
    requires shallow { procedures_depth context.now.tree.now.procedures ≤ most_depth }
    ensures walks { Walks (declared_in context.now.tree.now) (procedure_items 0 [] context.now.tree.now.procedures)
        spot.old spot.new result }
    ensures shown { IfOk result (λ all. all.items ≡ map variables_shown context.now.tree.now.procedures) }
    ensures few { OnOk result (length context.now.tree.now.procedures ≤ most_procedures) }
    ensures fine { OnOk result (variables_fine (names_of_records context.now.tree.now.records)
        context.now.tree.now.procedures ≡ true) }
{
    let mut names = Names::new(context.alloc);
    let mut all = Vec::new(context.alloc);
    for procedure in context.tree.procedures() {
        let variables = pass_procedure(context, &mut names, spot, procedure)?;
        all.push(variables)?;
    }
    Ok(all)
}

/// Judges a thread, and gives the names of its locals.
fn pass_thread(
    context: &Context<'_>,
    standing: &Standing<'_>,
    names: &mut Names,
    spot: &mut Spot,
    thread: &Thread,
) -> Result<Names, WalkFault>
    requires context { IsContext context.now }
    requires standing { standing.now ≡ record { procedures = context.now.tree.now.procedures; at = InThread false 1 } }
    requires shallow { block_depth thread.now.body + 1 ≤ most_depth }
    ensures walks { Walks (declared_in context.now.tree.now) (λ w. AThread thread.now.name names.old
        ∷ local_items [] thread.now.locals (block_items thread.now.locals (InThread false 1)
        thread.now.body w)) spot.old spot.new result }
    ensures names { OnOk result (names.new ≡ names.old ++ thread.now.name ∷ []) }
    ensures locals { IfOk result (λ own. own ≡ names_of_declared thread.now.locals) }
    ensures few { OnOk result (length names.old < most_threads) }
    ensures few_locals { OnOk result (length thread.now.locals ≤ most_locals) }
    ensures known_locals { OnOk result (all_known (names_of_records context.now.tree.now.records)
        thread.now.locals ≡ true) }
{
    let declared = Declared::Thread(thread.name);
    pass(context.tree, &context.shown.known, names, spot, declared)?;
    let list = thread.locals.as_slice();
    let own = locals(context.alloc, context.tree, context.shown, spot, list)?;
    let scope = Scope::new(context.tree, context.shown, list, &own);
    walk_block(&scope, spot, standing, &thread.body)?;
    Ok(own)
}

/// Judges all threads, and gives the names of the locals of each.
fn threads(
    context: &Context<'_>,
    standing: &Standing<'_>,
    spot: &mut Spot,
) -> Result<Vec<Names>, WalkFault>
    requires context { IsContext context.now }
    requires standing { standing.now ≡ record { procedures = context.now.tree.now.procedures; at = InThread false 1 } }
    requires shallow { threads_depth context.now.tree.now.threads ≤ most_depth }
    ensures walks { Walks (declared_in context.now.tree.now) (thread_items [] context.now.tree.now.threads)
        spot.old spot.new result }
    ensures locals { IfOk result (λ all. all.items ≡ names_of_locals context.now.tree.now.threads) }
    ensures few { OnOk result (length context.now.tree.now.threads ≤ most_threads) }
    ensures fine { OnOk result (locals_fine (names_of_records context.now.tree.now.records)
        context.now.tree.now.threads ≡ true) }
{
    let mut names = Names::new(context.alloc);
    let mut all = Vec::new(context.alloc);
    for thread in context.tree.threads() {
        let own = pass_thread(context, standing, &mut names, spot, thread)?;
        all.push(own)?;
    }
    Ok(all)
}

/// What a program keeps beside its tree.
#[derive(Drop)]
struct Parts {
    records: Vec<Items<ValueType>>,
    globals: Vec<u16>,
    locals: Vec<Items<ValueType>>,
    fresh: Vec<Items<Fresh>>,
    texts: Vec<Text>,
    lockings: Vec<Locking>,
    section_count: u16,
    site_count: u16,
    statement_count: u32,
}

/// What a program keeps beside its tree, once all items have been judged.
fn number_tree(
    context: &Context<'_>,
    variables: &[Variables],
    local_names: &[Names],
    spot: &Spot,
) -> Result<Parts, AllocError>
    requires context { IsContext context.now }
    requires variables { variables.now ≡ map variables_shown context.now.tree.now.procedures }
    requires locals { local_names.now ≡ names_of_locals context.now.tree.now.threads }
    requires counted { IsCounted context.now.tree.now spot.now }
    ensures numbers { IfOk result (λ p. IsWellNumbered (numbered_by context.now.tree.now
        p.records.items p.globals.items p.locals.items p.texts.items p.lockings.items)
        p.section_count p.site_count p.statement_count) }
    ensures fresh { IfOk result (λ p. p.fresh.items
        ≡ map (fresh_in context.now.tree.now) context.now.tree.now.threads) }
{
    let tree = context.tree;
    let alloc = context.alloc;
    let record_names = &context.shown.record_names;
    let records = field_types(alloc, record_names, tree.records())?;
    let globals = global_records(alloc, record_names, tree.globals())?;
    let setting = Setting::new(alloc, tree, context.shown, context.called, variables);
    let (texts, fresh) = expand(&setting, tree.threads(), local_names)?;
    let locals = local_types(alloc, record_names, tree.threads(), fresh.as_slice())?;
    let lockings = lockings(alloc, tree)?;
    Ok(Parts {
        records,
        globals,
        locals,
        fresh,
        texts,
        lockings,
        section_count: spot.sections(),
        site_count: spot.sites(),
        statement_count: spot.statements(),
    })
}

/// Judges all procedures and threads, and gives the variables of each procedure and the names of each thread's locals.
fn bodies(context: &Context<'_>, spot: &mut Spot) -> Result<(Vec<Variables>, Vec<Names>), WalkFault>
    requires context { IsContext context.now }
    requires shallow_procedures { procedures_depth context.now.tree.now.procedures ≤ most_depth }
    requires shallow_threads { threads_depth context.now.tree.now.threads ≤ most_depth }
    ensures walks { Walks (declared_in context.now.tree.now)
        (λ w. procedure_items 0 [] context.now.tree.now.procedures (thread_items [] context.now.tree.now.threads w))
        spot.old spot.new result }
    ensures variables { IfOk result (λ r. r.0.items ≡ map variables_shown context.now.tree.now.procedures) }
    ensures locals { IfOk result (λ r. r.1.items ≡ names_of_locals context.now.tree.now.threads) }
    ensures few_procedures { OnOk result (length context.now.tree.now.procedures ≤ most_procedures) }
    ensures fine_variables { OnOk result (variables_fine (names_of_records context.now.tree.now.records)
        context.now.tree.now.procedures ≡ true) }
    ensures few_threads { OnOk result (length context.now.tree.now.threads ≤ most_threads) }
    ensures fine_locals { OnOk result (locals_fine (names_of_records context.now.tree.now.records)
        context.now.tree.now.threads ≡ true) }
{
    let variables = procedures(context, spot)?;
    let table = table(context.alloc, context.called)?;
    let standing = Standing::in_thread(context.called, table.as_slice());
    let local_names = threads(context, &standing, spot)?;
    Ok((variables, local_names))
}

/// Judges all items of a tree and numbers its names.
fn judge_tree(alloc: Global, tree: &Tree, spot: &mut Spot) -> Result<Parts, WalkFault>
    requires { spot.old ≡ none_yet }
    ensures walks { Walks (declared_in tree.now)
        (λ w. record_items [] tree.now.records (global_items [] tree.now.globals
        (procedure_items 0 [] tree.now.procedures (thread_items [] tree.now.threads w))))
        spot.old spot.new result }
    ensures parts { IfOk result (λ p. IsWellNumbered (numbered_by tree.now
        p.records.items p.globals.items p.locals.items p.texts.items p.lockings.items)
        p.section_count p.site_count p.statement_count) }
    ensures fresh { IfOk result (λ p. p.fresh.items ≡ map (fresh_in tree.now) tree.now.threads) }
{
    let _facts = tree.is_empty();
    let called = Called::new(alloc, tree.procedures())?;
    let shown = declarations(alloc, tree, spot)?;
    let context = Context {
        alloc,
        tree,
        shown: &shown,
        called: &called,
    };
    let (variables, local_names) = bodies(&context, spot)?;
    let parts = number_tree(&context, variables.as_slice(), local_names.as_slice(), spot)?;
    Ok(parts)
}

/// A typed program: a tree whose items break no rule, with its declarations and its statements by number. Records,
/// globals and threads are numbered from 0 in text order, the fields of a record and the locals of a thread likewise.
/// Sections are numbered from 0 in text order over the whole program; sites are the globals, then the `new` statements
/// in text order.
pub struct Program {
    tree: Tree,
    records: Vec<Items<ValueType>>,
    globals: Vec<u16>,
    locals: Vec<Items<ValueType>>,
    fresh: Vec<Items<Fresh>>,
    texts: Vec<Text>,
    lockings: Vec<Locking>,
    section_count: u16,
    site_count: u16,
    statement_count: u32,
}

impl Drop for Program {
    fn drop(self) {
        let Program {
            tree: _,
            records: _,
            globals: _,
            locals: _,
            fresh: _,
            texts: _,
            lockings: _,
            section_count: _,
            site_count: _,
            statement_count: _,
        } = self;
    }
}

impl Model for Program {
    ghost use Rattle.std.specs.Coded.{codes};
    ghost use Rattle.sect_front.specs.Coding.{block_code};
    ghost use Rattle.sect_types.specs.Coding.{statements_code};
    ghost use Rattle.sect_types.specs.steps.Counted.{IsCounted};
    ghost use Rattle.sect_types.specs.Programs.{ProgramView, numbered_by, IsProgram};

    ghost Value = { ProgramView };

    ghost coded = { Prim.hlevel (codes, block_code, statements_code) };

    ghost view = { λ p.
        numbered_by p.tree p.records.items p.globals.items p.locals.items p.texts.items p.lockings.items };

    ghost use Rattle.std.specs.Prelude.{◌≡◌, map};
    ghost use Rattle.sect_types.specs.Expanded.{fresh_in};

    ghost invariant = { λ p. IsProgram
        (numbered_by p.tree p.records.items p.globals.items p.locals.items p.texts.items p.lockings.items)
        p.section_count p.site_count p.statement_count
        × (p.fresh.items ≡ map (fresh_in p.tree) p.tree.threads) };
}

impl Program {
    ghost use Rattle.std.specs.Prelude.{◌↔◌, IsTrue};

    /// The tree, which is typed.
    pub fn tree(&self) -> &Tree
        ensures tree { result.now ≡ self.now.source }
        ensures typed { IsTyped self.now.source }
        ensures numbers { IsOfTree self.now }
    {
        &self.tree
    }

    /// Whether two programs are the same: whether their source texts have the same tree.
    pub fn is_same(&self, other: &Program) -> bool
        ensures { IsTrue result ↔ (self.now ≡ other.now) }
    {
        is_same(&self.tree, &other.tree)
    }

    /// What typing means for the numbers, which the clauses say: each name is the number of something that is there,
    /// and types agree; loads, stores, `new` and `print` stand inside sections alone, and no section in a section; all
    /// counts are within the limits; sections and sites are numbered in text order.
    pub fn facts(&self)
        ensures sound { AreSound self.now.records self.now.globals self.now.locals self.now.texts }
        ensures records_there { AreRecordsThere self.now }
        ensures limits { IsWithinLimits self.now }
        ensures sections { AllNumbered 0 self.now.texts }
        ensures sites { AllSited (length self.now.globals) self.now.texts }
        ensures lockings { length self.now.lockings ≡ length (sections_of self.now.texts) }
    {
        let _facts = &self.texts;
    }

    /// The types of the fields of each record.
    pub fn records(&self) -> &[Items<ValueType>]
        ensures { result.now ≡ self.now.records }
    {
        self.records.as_slice()
    }

    /// The number of the record of each global.
    pub fn globals(&self) -> &[u16]
        ensures { result.now ≡ self.now.globals }
    {
        self.globals.as_slice()
    }

    /// The types of the locals of each thread.
    pub fn locals(&self) -> &[Items<ValueType>]
        ensures { result.now ≡ self.now.locals }
    {
        self.locals.as_slice()
    }

    /// What a local of a thread is called.
    pub fn local_name(&self, thread: u16, number: u16) -> LocalName
        requires { number < length (slice_index_or self.now.locals thread []) }
        ensures { slice_get (slice_index_or (all_local_names self.now.source) thread []) number ≡ Some result }
    {
        let own = self.tree.threads()[thread as usize].locals.as_slice();
        match own.get(number as usize) {
            Some(local) => LocalName {
                name: local.name,
                call: None,
            },
            None => {
                let place = number as usize - own.len();
                let fresh = self.fresh[thread as usize].as_slice()[place];
                LocalName {
                    name: fresh.declared.name,
                    call: Some(fresh.call as u32),
                }
            }
        }
    }

    /// How many threads there are, at most 64.
    pub fn thread_count(&self) -> u16
        ensures count { result ≡ length self.now.texts }
        ensures few { result ≤ most_threads }
    {
        self.texts.len() as u16
    }

    /// The text of a thread.
    pub fn text(&self, thread: u16) -> &Text
        requires { thread < length self.now.texts }
        ensures text { slice_get self.now.texts thread ≡ Some result.now }
        ensures sound { IsSound (environment_at self.now thread) false result.now }
    {
        &self.texts[thread as usize]
    }

    /// How many sections there are, at most 256.
    pub fn section_count(&self) -> u16
        ensures count { result ≡ length (sections_of self.now.texts) }
        ensures few { result ≤ most_sections }
    {
        self.section_count
    }

    /// The section of this number.
    pub fn section(&self, number: u16) -> Section<'_>
        requires { number < length (sections_of self.now.texts) }
        ensures section { slice_get (sections_of self.now.texts) number ≡ Some (section_shown result) }
        ensures thread { result.thread < length self.now.texts }
        ensures sound { IsSound (environment_at self.now result.thread) true result.body.now }
    {
        find(self.texts.as_slice(), number).unwrap()
    }

    /// Which locks the section of this number takes.
    pub fn locking(&self, number: u16) -> Locking
        requires { number < length (sections_of self.now.texts) }
        ensures { slice_get self.now.lockings number ≡ Some result }
    {
        self.lockings[number as usize]
    }

    /// How many sites there are, at most 1024.
    pub fn site_count(&self) -> u16
        ensures count { result ≡ length (sites_of self.now.globals self.now.texts) }
        ensures few { result ≤ most_sites }
    {
        self.site_count
    }

    /// How many statements there are, at most 4096; an `if`, a `while` and a section count too.
    pub fn statement_count(&self) -> u32
        ensures count { result ≡ total_statements self.now.texts }
        ensures few { result ≤ most_statements }
    {
        self.statement_count
    }
}

/// What a program keeps beside its tree, or the first item at fault with the least rule that it breaks.
#[tactic(auto, using(crate::proofs::FirstLemmas::fine_says, crate::proofs::FirstLemmas::fault_says))]
fn parts_of(alloc: Global, tree: &Tree) -> Result<Parts, TypeFault>
    ensures typed { OnOk result (IsTyped tree.now) }
    ensures parts { IfOk result (λ p. IsWellNumbered (numbered_by tree.now
        p.records.items p.globals.items p.locals.items p.texts.items p.lockings.items)
        p.section_count p.site_count p.statement_count) }
    ensures fresh { IfOk result (λ p. p.fresh.items ≡ map (fresh_in tree.now) tree.now.threads) }
    ensures fault { IfErr result (λ e. Judges {A = ℕ} tree.now (Err e)) }
    ensures only { IsTyped tree.now → IsOkUnless result Memory }
{
    let mut spot = Spot::start();
    let parts = judge_tree(alloc, tree, &mut spot)?;
    Ok(parts)
}

/// Why a tree has no program, and the tree.
#[derive(Drop)]
pub struct Mistyped {
    pub fault: TypeFault,
    pub tree: Tree,
}

/// The program of a tree. A tree that has none is given back, with its first item at fault and the least rule that it
/// breaks.
pub fn check_tree(alloc: Global, tree: Tree) -> Result<Program, Mistyped>
    ensures typed { OnOk result (IsTyped tree) }
    ensures same { IfOk result (λ p. p.source ≡ tree) }
    ensures fault { IfErr result (λ m. Judges {A = ℕ} tree (Err m.fault)) }
    ensures only { IfErr result (λ m. IsTyped tree → m.fault ≡ Memory) }
    ensures back { IfErr result (λ m. m.tree ≡ tree) }
{
    match parts_of(alloc, &tree) {
        Ok(parts) => Ok(Program {
            tree,
            records: parts.records,
            globals: parts.globals,
            locals: parts.locals,
            fresh: parts.fresh,
            texts: parts.texts,
            lockings: parts.lockings,
            section_count: parts.section_count,
            site_count: parts.site_count,
            statement_count: parts.statement_count,
        }),
        Err(fault) => Err(Mistyped { fault, tree }),
    }
}

/// The program of a tree, or the first item at fault with the least rule that it breaks.
#[tactic(auto, using(crate::proofs::FirstLemmas::refused_as))]
pub fn check_types(alloc: Global, tree: Tree) -> Result<Program, TypeFault>
    ensures judges { Judges tree result }
    ensures only { IsTyped tree → IsOkUnless result Memory }
    ensures same { IfOk result (λ p. p.source ≡ tree) }
{
    match check_tree(alloc, tree) {
        Ok(program) => Ok(program),
        Err(mistyped) => Err(mistyped.fault),
    }
}
