//! The expanded texts of threads: a call is replaced by an assignment to each fresh variable and the body of the
//! procedure.

ghost use Rattle.std.specs.Prelude.{◌≡◌, ◌+◌, ◌≤◌, ◌<◌, ◌++◌, IfOk, OnOk, IsSome, Some, true, length, map};
ghost use Rattle.std.specs.Prelude.{slice_get};
ghost use Rattle.sect_front.specs.{Trees.{statement_of}, declared.tree.Procedure.{Procedure as Spec}, Syntax.{Call}};
ghost use Rattle.sect_types.specs.{Statements.{TextView, joined}, Sight.{names_of_declared}};
ghost use Rattle.sect_types.specs.{Rules.{sight, knows_operands}, Sums.{primitive_sums, number_of as number_by}};
ghost use Rattle.sect_types.specs.Expanded.{of_call, texts_of, fresh_in, cleared as cleared_by};
ghost use Rattle.sect_types.specs.Limits.{most_all_locals, most_sites, most_sections, most_calls, most_locals};
ghost use Rattle.sect_types.specs.Limits.{most_globals};
ghost use Rattle.sect_types.specs.steps.Threads.{variables_shown, local_names as names_of_locals};
ghost use Rattle.sect_types.specs.steps.Expanding.{Fits, AreFlat, AllFit, thread_end, thread_text, numbered_thread};
ghost use Rattle.sect_types.specs.steps.Expanding.{setting_of, tree_of};
ghost use Rattle.sect_types.specs.steps.Inside.{scene_in, past_in, past_block_in, text_in, block_text_in, numbered_in};
ghost use Rattle.sect_types.specs.steps.{Inside.{numbered_block_in}, Written.{write_parameters, write_locals}};
ghost use Rattle.sect_types.specs.steps.Shown.{Shows};

use crate::declarations::names::Names;
use crate::declarations::shown::Shown;
use crate::declarations::variables::Variables;
use crate::expansion::action::{Action, Value};
use crate::expansion::inside::Inside;
use crate::expansion::text::{Step, Text};
use crate::rules::called::Called;
use crate::rules::scope::Scope;
use sect_front::{
    Block, Declaration, Items, Kind, Literal, Name, Operand, Primitive, Procedure, Statement,
    Thread, Tree,
};
use std::alloc::{AllocError, Global};
use std::marker::Model;

/// A fresh local: its declaration, and the number of its call in the thread.
#[derive(Clone, Copy)]
pub struct Fresh {
    pub declared: Declaration,
    pub call: u16,
}

/// What the expansion of each thread sees: the names of a tree, its procedures by name, and the variables of each.
#[derive(Drop)]
pub struct Setting<'a> {
    alloc: Global,
    tree: &'a Tree,
    shown: &'a Shown,
    called: &'a Called<'a>,
    variables: &'a [Variables],
}

impl<'a> Model for Setting<'a> {
    ghost use Rattle.std.specs.Coded.{codes};
    ghost use Rattle.sect_front.specs.Coding.{block_code};
    ghost use Rattle.sect_types.specs.steps.Expanding.{SettingView, IsSetting, setting_of};

    ghost Value = { SettingView };

    ghost coded = { Prim.hlevel (codes, block_code) };

    ghost view = { λ w. setting_of w.tree.now };

    ghost invariant = { λ w. IsSetting w.tree.now w.shown.now w.called.now w.variables.now };
}

impl<'a> Setting<'a> {
    /// The setting of a tree, whose names, procedures and variables are given beside it.
    pub fn new(
        alloc: Global,
        tree: &'a Tree,
        shown: &'a Shown,
        called: &'a Called<'a>,
        variables: &'a [Variables],
    ) -> Setting<'a>
        requires shown { Shows shown.now tree.now }
        requires procedures { called.now ≡ tree.now.procedures }
        requires variables { variables.now ≡ map variables_shown tree.now.procedures }
        requires flat { AreFlat tree.now.procedures }
        ensures { result ≡ setting_of tree.now }
    {
        Setting {
            alloc,
            tree,
            shown,
            called,
            variables,
        }
    }

    /// How many procedures there are.
    fn len(&self) -> usize
        ensures { result ≡ length self.now.procedures }
    {
        self.called.procedures().len()
    }

    /// The number of the first procedure of this name.
    fn number_of(&self, name: &Name) -> Option<usize>
        ensures { result ≡ number_by self.now.procedures name.now }
    {
        self.called.number_of(name)
    }

    /// The procedure of this number.
    fn procedure(&self, number: usize) -> &Procedure
        requires { number < length self.now.procedures }
        ensures there { slice_get self.now.procedures number ≡ Some result.now }
        ensures flat { AreFlat self.now.procedures }
    {
        &self.called.procedures()[number]
    }

    /// Its variables.
    fn variables(&self, number: usize) -> &Variables
        requires { number < length self.now.procedures }
        ensures { (p : Spec) → slice_get self.now.procedures number ≡ Some p
            → result.now ≡ variables_shown p }
    {
        self.variables.get(number).unwrap()
    }

    /// What statements with these variables see.
    fn scope<'b>(&'b self, list: &'b [Declaration], names: &'b Names) -> Scope<'b>
        requires { names.now ≡ names_of_declared list.now }
        ensures { result ≡ sight self.now.records self.now.globals list.now }
    {
        Scope::new(self.tree, self.shown, list, names)
    }
}

/// How far the expansion has come: the next site and section; and in the thread the number of the next call, how many
/// locals it declares, and its fresh ones.
#[derive(Drop)]
pub struct Front {
    sites: u16,
    sections: u16,
    calls: u16,
    own: u16,
    fresh: Vec<Fresh>,
}

impl Model for Front {
    ghost use Rattle.std.specs.Prelude.{◌+◌, length};
    ghost use Rattle.sect_types.specs.steps.Expanding.{FrontView};

    ghost Value = { FrontView };

    ghost view = { λ f. record {
      at = record { sites = f.sites; sections = f.sections; fresh = f.own + length f.fresh.items };
      calls = f.calls;
      fresh = f.fresh.items;
    } };
}

impl Front {
    /// Takes a site if the statement is a `new`.
    fn pass_primitive(&mut self, primitive: &Primitive)
        requires { self.old.at.sites + (primitive_sums primitive.now).sites ≤ most_sites }
        ensures { self.new ≡ record self.old {
          at = record self.old.at { sites = self.old.at.sites + (primitive_sums primitive.now).sites };
        } }
    {
        if let Primitive::New(_, _) = primitive {
            self.sites += 1;
        }
    }

    /// Takes the number of a section.
    fn pass_section(&mut self) -> u16
        requires { self.old.at.sections < most_sections }
        ensures number { result ≡ self.old.at.sections }
        ensures front { self.new ≡ record self.old { at = record self.old.at { sections = self.old.at.sections + 1 } } }
    {
        let number = self.sections;
        self.sections += 1;
        number
    }

    /// The number of the next fresh local.
    fn next(&self) -> u16
        requires { self.now.at.fresh ≤ most_all_locals }
        ensures { result ≡ self.now.at.fresh }
    {
        self.own + self.fresh.len() as u16
    }

    /// Takes a call and its fresh locals.
    fn pass_call(&mut self, variables: &[Declaration]) -> Result<(), AllocError>
        requires { self.old.calls < most_calls }
        ensures { OnOk result (self.new ≡ record {
          at = record self.old.at { fresh = self.old.at.fresh + length variables.now };
          calls = self.old.calls + 1;
          fresh = self.old.fresh ++ of_call self.old.calls variables.now;
        }) }
    {
        put_variables(variables, self.calls, &mut self.fresh)?;
        self.calls += 1;
        Ok(())
    }
}

/// Adds the variables of a call that has this number.
fn put_variables(
    variables: &[Declaration],
    call: u16,
    out: &mut Vec<Fresh>,
) -> Result<(), AllocError>
    ensures { OnOk result (out.new.items ≡ out.old.items ++ of_call call variables.now) }
{
    for declared in variables {
        out.push(Fresh {
            declared: *declared,
            call,
        })?;
    }
    Ok(())
}

/// What a local is set to before it is first used.
fn cleared(kind: &Kind) -> Value
    ensures { result ≡ cleared_by kind.now }
{
    match kind {
        Kind::Int => Value::Number(Literal::new(0)),
        Kind::Record(_) => Value::Null,
    }
}

/// Sets the parameters, which have the numbers from `fresh` on, to the arguments.
fn put_parameters(
    inside: &Inside<'_>,
    fresh: u16,
    parameters: &[Declaration],
    operands: &[Operand],
    out: &mut Text,
) -> Result<(), AllocError>
    requires fresh { fresh + length parameters.now ≤ most_all_locals }
    requires as_many { length parameters.now ≡ length operands.now }
    requires known { knows_operands inside.now.scope.now operands.now ≡ true }
    ensures { OnOk result ((k : TextView) → joined out.new k
        ≡ joined out.old (write_parameters (scene_in inside.now) fresh parameters.now operands.now k)) }
{
    for place in 0..parameters.len() {
        let value = inside.scope.argument(inside.first, &operands[place]);
        out.push(Step::Do(Action::Assign(fresh + place as u16, value)))?;
    }
    Ok(())
}

/// Sets the locals, which have the numbers from `fresh` on, to 0 or null.
fn put_cleared(fresh: u16, list: &[Declaration], out: &mut Text) -> Result<(), AllocError>
    requires { fresh + length list.now ≤ most_all_locals }
    ensures { OnOk result ((k : TextView) → joined out.new k
        ≡ joined out.old (write_locals fresh list.now k)) }
{
    for place in 0..list.len() {
        let value = cleared(&list[place].kind);
        out.push(Step::Do(Action::Assign(fresh + place as u16, value)))?;
    }
    Ok(())
}

/// Adds the expansion of a call.
#[cycle(expand)]
fn expand_call(
    inside: &Inside<'_>,
    front: &mut Front,
    name: &Name,
    operands: &[Operand],
    out: &mut Text,
) -> Result<(), AllocError>
    requires fits { Fits (past_in inside.now front.old (Call name.now operands.now)) }
    requires known { IsSome (numbered_in inside.now front.old (Call name.now operands.now)) }
    ensures text { OnOk result ((k : TextView) → joined out.new k
        ≡ joined out.old (text_in inside.now front.old (Call name.now operands.now) k)) }
    ensures front { OnOk result (front.new ≡ past_in inside.now front.old (Call name.now operands.now)) }
{
    let setting = inside.setting;
    let number = setting.number_of(name).unwrap();
    let procedure = setting.procedure(number);
    let variables = setting.variables(number);
    let fresh = front.next();
    let parameters = procedure.parameters.as_slice();
    put_parameters(inside, fresh, parameters, operands, out)?;
    let cleared = fresh + parameters.len() as u16;
    put_cleared(cleared, procedure.locals.as_slice(), out)?;
    front.pass_call(variables.as_slice())?;
    let scope = setting.scope(variables.as_slice(), variables.names());
    let inner = Inside {
        setting,
        most: inside.most - 1,
        scope: &scope,
        first: fresh,
    };
    expand_block(&inner, front, &procedure.body, out)?;
    Ok(())
}

/// Adds a statement.
#[cycle(expand)]
fn expand_statement(
    inside: &Inside<'_>,
    front: &mut Front,
    statement: &Statement,
    out: &mut Text,
) -> Result<(), AllocError>
    requires fits { Fits (past_in inside.now front.old (statement_of statement.now)) }
    requires known { IsSome (numbered_in inside.now front.old (statement_of statement.now)) }
    ensures text { OnOk result ((k : TextView) → joined out.new k
        ≡ joined out.old (text_in inside.now front.old (statement_of statement.now) k)) }
    ensures front { OnOk result (front.new ≡ past_in inside.now front.old (statement_of statement.now)) }
{
    let setting = inside.setting;
    let alloc = setting.alloc;
    match statement {
        Statement::Primitive(primitive) => {
            let action = inside.scope.action(inside.first, front.sites, primitive);
            front.pass_primitive(primitive);
            out.push(Step::Do(action))?;
            Ok(())
        }
        Statement::If(test, then) => {
            let condition = inside.scope.condition(inside.first, test);
            let mut yes = Text::with_room(alloc, then.as_slice().len())?;
            expand_block(inside, front, then, &mut yes)?;
            out.push(Step::If(condition, yes, Text::new(alloc)))?;
            Ok(())
        }
        Statement::IfElse(test, then, other) => {
            let condition = inside.scope.condition(inside.first, test);
            let mut yes = Text::with_room(alloc, then.as_slice().len())?;
            expand_block(inside, front, then, &mut yes)?;
            let mut no = Text::with_room(alloc, other.as_slice().len())?;
            expand_block(inside, front, other, &mut no)?;
            out.push(Step::If(condition, yes, no))?;
            Ok(())
        }
        Statement::While(test, body) => {
            let condition = inside.scope.condition(inside.first, test);
            let mut inner = Text::with_room(alloc, body.as_slice().len())?;
            expand_block(inside, front, body, &mut inner)?;
            out.push(Step::While(condition, inner))?;
            Ok(())
        }
        Statement::Atomic(_, body) => {
            let number = front.pass_section();
            let mut inner = Text::with_room(alloc, body.as_slice().len())?;
            expand_block(inside, front, body, &mut inner)?;
            out.push(Step::Section(number, inner))?;
            Ok(())
        }
        Statement::Call(name, operands) => {
            let operands = operands.as_slice();
            expand_call(inside, front, name, operands, out)
        }
    }
}

/// Adds the statements of a block.
#[cycle(expand)]
fn expand_block(
    inside: &Inside<'_>,
    front: &mut Front,
    block: &Block,
    out: &mut Text,
) -> Result<(), AllocError>
    requires fits { Fits (past_block_in inside.now front.old block.now) }
    requires known { IsSome (numbered_block_in inside.now front.old block.now) }
    ensures text { OnOk result ((k : TextView) → joined out.new k
        ≡ joined out.old (joined (block_text_in inside.now front.old block.now) k)) }
    ensures front { OnOk result (front.new ≡ past_block_in inside.now front.old block.now) }
{
    for statement in block.as_slice() {
        expand_statement(inside, front, statement, out)?;
    }
    Ok(())
}

/// The expanded text of a thread, with its fresh locals.
fn expand_thread(
    setting: &Setting<'_>,
    sites: &mut u16,
    sections: &mut u16,
    thread: &Thread,
    names: &Names,
) -> Result<(Text, Items<Fresh>), AllocError>
    requires few { length thread.now.locals ≤ most_locals }
    requires names { names.now ≡ names_of_declared thread.now.locals }
    requires fits { Fits (thread_end setting.now sites.old sections.old thread.now) }
    requires known { IsSome (numbered_thread setting.now sites.old sections.old thread.now) }
    ensures sites { OnOk result (sites.new ≡ (thread_end setting.now sites.old sections.old thread.now).at.sites) }
    ensures sections { OnOk result (sections.new
        ≡ (thread_end setting.now sites.old sections.old thread.now).at.sections) }
    ensures text { IfOk result (λ r. r.0 ≡ thread_text setting.now sites.old sections.old thread.now) }
    ensures fresh { IfOk result (λ r. r.1 ≡ (thread_end setting.now sites.old sections.old thread.now).fresh) }
{
    let alloc = setting.alloc;
    let list = thread.locals.as_slice();
    let mut front = Front {
        sites: *sites,
        sections: *sections,
        calls: 0,
        own: list.len() as u16,
        fresh: Vec::new(alloc),
    };
    let scope = setting.scope(list, names);
    let inside = Inside {
        setting,
        most: setting.len(),
        scope: &scope,
        first: 0,
    };
    let mut text = Text::with_room(alloc, thread.body.as_slice().len())?;
    expand_block(&inside, &mut front, &thread.body, &mut text)?;
    *sites = front.sites;
    *sections = front.sections;
    Ok((text, Items::from_vec(front.fresh)))
}

/// The expanded texts of all threads, with the fresh locals of each.
pub fn expand(
    setting: &Setting<'_>,
    threads: &[Thread],
    local_names: &[Names],
) -> Result<(Vec<Text>, Vec<Items<Fresh>>), AllocError>
    requires globals { length setting.now.globals ≤ most_globals }
    requires names { local_names.now ≡ names_of_locals threads.now }
    requires fits { AllFit setting.now (length setting.now.globals) 0 threads.now }
    requires known { IsSome (texts_of (tree_of setting.now threads.now)) }
    ensures texts { IfOk result (λ r. texts_of (tree_of setting.now threads.now) ≡ Some r.0.items) }
    ensures fresh { IfOk result (λ r. r.1.items
        ≡ map (fresh_in (tree_of setting.now threads.now)) threads.now) }
{
    let alloc = setting.alloc;
    let mut sites = setting.tree.globals().len() as u16;
    let mut sections = 0;
    let mut texts = Vec::new(alloc);
    let mut fresh = Vec::new(alloc);
    for number in 0..threads.len() {
        let thread = &threads[number];
        let names = &local_names[number];
        let (text, locals) = expand_thread(setting, &mut sites, &mut sections, thread, names)?;
        texts.push(text)?;
        fresh.push(locals)?;
    }
    Ok((texts, fresh))
}
