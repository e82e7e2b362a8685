//! What the names of a statement denote.

ghost use Rattle.std.specs.Prelude.{◌≡◌, ◌≤◌, ◌+◌, IsSome, length, option_map};
ghost use Rattle.sect_types.specs.Sight.{base_of, operand_of, field_of, looked_of, names_of_declared};
ghost use Rattle.sect_types.specs.Numbered.{target_of, base_by, field_by, value_of, action_of, condition_of};
ghost use Rattle.sect_types.specs.Expanded.{moved_action as moved_action_by, moved_condition as moved_condition_by};
ghost use Rattle.sect_types.specs.Limits.{most_all_locals};
ghost use Rattle.sect_types.specs.Rules.{knows_primitive, primitive_agrees, knows_test, test_agrees, sight};
ghost use Rattle.sect_types.specs.Rules.{knows_operands, kind_accepts, all_accept};
ghost use Rattle.sect_front.specs.declared.tree.Operator.{Operator};
ghost use Rattle.sect_types.specs.steps.{Shown.{Shows}, Walks.{rule_in, of_types}};
ghost use Rattle.sect_types.specs.steps.Written.{action_in, condition_in, argument_in};

use crate::declarations::names::Names;
use crate::declarations::shown::Shown;
use crate::expansion::action::{Action, Base, Condition, Field, Value};
use crate::expansion::moved::{moved_action, moved_condition, moved_value};
use crate::rules::judge::{
    judge_assign, judge_comparison, judge_compute, judge_load, judge_new, judge_print, judge_store,
};
use crate::rules::resolve::{Denoted, FieldAt, Given, Looked, accepts, base, kind_of, value};
use crate::rules::rule::Rule;
use sect_front::{Declaration, GlobalObject, Kind, Name, Operand, Primitive, Record, Test, Tree};
use std::marker::Model;

/// The declarations that a statement sees, with their names by number.
#[derive(Drop)]
pub struct Scope<'a> {
    records: &'a [Record],
    record_names: &'a Names,
    field_names: &'a [Names],
    globals: &'a [GlobalObject],
    global_names: &'a Names,
    locals: &'a [Declaration],
    local_names: &'a Names,
}

impl<'a> Model for Scope<'a> {
    ghost use Rattle.sect_types.specs.Sight.{Sight, IsNamed};

    ghost Value = { Sight };

    ghost view = { λ s. record { records = s.records.now; globals = s.globals.now; locals = s.locals.now } };

    ghost invariant = { λ s. IsNamed s.records.now s.record_names.now s.field_names.now s.globals.now
        s.global_names.now s.locals.now s.local_names.now };
}

/// The local or global that is denoted, if one is.
fn source(denoted: &Option<Denoted>) -> Option<Base>
    ensures { result ≡ option_map base_by denoted.now }
{
    match denoted {
        Some(denoted) => Some(base(*denoted)),
        None => None,
    }
}

impl<'a> Scope<'a> {
    /// What statements with these locals see, whose names are given beside them.
    pub fn new(
        tree: &'a Tree,
        shown: &'a Shown,
        locals: &'a [Declaration],
        local_names: &'a Names,
    ) -> Scope<'a>
        requires shown { Shows shown.now tree.now }
        requires locals { local_names.now ≡ names_of_declared locals.now }
        ensures { result ≡ sight tree.now.records tree.now.globals locals.now }
    {
        Scope {
            records: tree.records(),
            record_names: &shown.record_names,
            field_names: shown.field_names.as_slice(),
            globals: tree.globals(),
            global_names: &shown.global_names,
            locals,
            local_names,
        }
    }

    /// What a name denotes.
    fn base(&self, name: &Name) -> Option<Denoted>
        ensures { result ≡ base_of self.now name.now }
    {
        if let Some(number) = self.local_names.number_of(name) {
            if let Some(local) = self.locals.get(number as usize) {
                return Some(Denoted::Local(number, local.kind));
            }
        }
        let number = self.global_names.number_of(name)?;
        let global = self.globals.get(number as usize)?;
        Some(Denoted::Global(number, global.of))
    }

    /// What an operand denotes.
    fn operand(&self, operand: &Operand) -> Option<Given>
        ensures { result ≡ operand_of self.now operand.now }
    {
        match operand {
            Operand::Number(n) => Some(Given::Number(*n)),
            Operand::Null => Some(Given::Null),
            Operand::Name(name) => match self.base(name) {
                Some(denoted) => Some(Given::Base(denoted)),
                None => None,
            },
        }
    }

    /// A field of a record.
    fn field(&self, of: &Name, name: &Name) -> Option<FieldAt>
        ensures { result ≡ field_of self.now of.now name.now }
    {
        let of = self.record_names.number_of(of)?;
        let fields = self.records.get(of as usize)?.fields.as_slice();
        let number = self.field_names.get(of as usize)?.number_of(name)?;
        let field = fields.get(number as usize)?;
        Some(FieldAt {
            field: Field { of, number },
            kind: field.kind,
        })
    }

    /// What stands behind the dot of a base.
    fn looked(&self, base: &Option<Denoted>, field: &Name) -> Looked
        ensures { result ≡ looked_of self.now base.now field.now }
    {
        match base {
            None => Looked::Missing,
            Some(denoted) => match kind_of(denoted) {
                Kind::Int => Looked::OfInt,
                Kind::Record(of) => match self.field(&of, field) {
                    None => Looked::Missing,
                    Some(at) => Looked::At(at),
                },
            },
        }
    }

    /// Whether the names in all of these operands are known.
    pub fn knows_all(&self, operands: &[Operand]) -> bool
        ensures { result ≡ knows_operands self.now operands.now }
    {
        for operand in operands {
            if self.operand(operand).is_none() {
                return false;
            }
        }
        true
    }

    /// Whether a variable of this type can be set to the operand.
    fn accepts(&self, kind: Kind, operand: &Operand) -> bool
        ensures { result ≡ kind_accepts kind (operand_of self.now operand.now) }
    {
        match self.operand(operand) {
            None => false,
            Some(given) => accepts(kind, &given),
        }
    }

    /// Whether these parameters can be set to these operands, of which there are as many.
    pub fn accepts_all(&self, parameters: &[Declaration], operands: &[Operand]) -> bool
        requires { length parameters.now ≡ length operands.now }
        ensures { result ≡ all_accept self.now parameters.now operands.now }
    {
        for place in 0..parameters.len() {
            if !self.accepts(parameters[place].kind, &operands[place]) {
                return false;
            }
        }
        true
    }

    /// The rule of types that a statement without a block breaks, if any.
    pub fn judge_primitive(&self, primitive: &Primitive) -> Result<(), Rule>
        ensures { rule_in result ≡ of_types (knows_primitive self.now primitive.now)
            (primitive_agrees self.now primitive.now) }
    {
        match primitive {
            Primitive::Assign(x, v) => self.judge_assigned(x, v),
            Primitive::Compute(x, v, _, w) => self.judge_computed(x, v, w),
            Primitive::New(x, of) => self.judge_made(x, of),
            Primitive::Load(x, y, f) => self.judge_loaded(x, y, f),
            Primitive::Store(y, f, v) => self.judge_stored(y, f, v),
            Primitive::Print(v) => judge_print(self.operand(v)),
        }
    }

    // each of the kinds of statements has a function of its own, since a function makes room for all that it may hold

    /// The rule of types that `x = v` breaks, if any.
    #[inline(never)]
    fn judge_assigned(&self, x: &Name, v: &Operand) -> Result<(), Rule>
        ensures { rule_in result ≡ of_types (knows_primitive self.now (Primitive.Assign x.now v.now))
            (primitive_agrees self.now (Primitive.Assign x.now v.now)) }
    {
        judge_assign(self.base(x), self.operand(v))
    }

    /// The rule of types that `x = v + w` breaks, with whatever operator, if any.
    #[inline(never)]
    fn judge_computed(&self, x: &Name, v: &Operand, w: &Operand) -> Result<(), Rule>
        ensures { (o : Operator) → rule_in result
            ≡ of_types (knows_primitive self.now (Primitive.Compute x.now v.now o w.now))
            (primitive_agrees self.now (Primitive.Compute x.now v.now o w.now)) }
    {
        judge_compute(self.base(x), self.operand(v), self.operand(w))
    }

    /// The rule of types that `x = new of` breaks, if any.
    #[inline(never)]
    fn judge_made(&self, x: &Name, of: &Name) -> Result<(), Rule>
        ensures { rule_in result ≡ of_types (knows_primitive self.now (Primitive.New x.now of.now))
            (primitive_agrees self.now (Primitive.New x.now of.now)) }
    {
        judge_new(self.base(x), *of, self.record_names.has(of))
    }

    /// The rule of types that `x = y.f` breaks, if any.
    #[inline(never)]
    fn judge_loaded(&self, x: &Name, y: &Name, f: &Name) -> Result<(), Rule>
        ensures { rule_in result ≡ of_types (knows_primitive self.now (Primitive.Load x.now y.now f.now))
            (primitive_agrees self.now (Primitive.Load x.now y.now f.now)) }
    {
        let from = self.base(y);
        let field = self.looked(&from, f);
        judge_load(self.base(x), from, &field)
    }

    /// The rule of types that `y.f = v` breaks, if any.
    #[inline(never)]
    fn judge_stored(&self, y: &Name, f: &Name, v: &Operand) -> Result<(), Rule>
        ensures { rule_in result ≡ of_types (knows_primitive self.now (Primitive.Store y.now f.now v.now))
            (primitive_agrees self.now (Primitive.Store y.now f.now v.now)) }
    {
        let to = self.base(y);
        let field = self.looked(&to, f);
        judge_store(to, &field, self.operand(v))
    }

    /// The rule of types that a test breaks, if any.
    pub fn judge_test(&self, test: &Test) -> Result<(), Rule>
        ensures { rule_in result ≡ of_types (knows_test self.now test.now) (test_agrees self.now test.now) }
    {
        judge_comparison(
            self.operand(&test.left),
            test.comparison,
            self.operand(&test.right),
        )
    }

    /// The number of the local of this name.
    fn target(&self, name: &Name) -> Option<u16>
        ensures { result ≡ target_of self.now name.now }
    {
        match self.base(name)? {
            Denoted::Local(number, _) => Some(number),
            Denoted::Global(_, _) => None,
        }
    }

    /// The field behind the dot of a base.
    fn field_behind(&self, base: &Option<Denoted>, field: &Name) -> Option<Field>
        ensures { result ≡ field_by (looked_of self.now base.now field.now) }
    {
        match self.looked(base, field) {
            Looked::At(at) => Some(at.field),
            Looked::Missing | Looked::OfInt => None,
        }
    }

    /// The value of an operand.
    fn value(&self, operand: &Operand) -> Option<Value>
        ensures { result ≡ value_of self.now operand.now }
    {
        match self.operand(operand) {
            Some(given) => Some(value(given)),
            None => None,
        }
    }

    /// A statement without a block by numbers, if its names are known; if it is a `new`, its object has this site.
    fn numbered(&self, site: u16, primitive: &Primitive) -> Option<Action>
        ensures { result ≡ action_of self.now site primitive.now }
    {
        match primitive {
            Primitive::Assign(x, v) => Some(Action::Assign(self.target(x)?, self.value(v)?)),
            Primitive::Compute(x, v, operator, w) => Some(Action::Compute(
                self.target(x)?,
                self.value(v)?,
                *operator,
                self.value(w)?,
            )),
            Primitive::New(x, of) => Some(Action::New(
                self.target(x)?,
                self.record_names.number_of(of)?,
                site,
            )),
            Primitive::Load(x, y, f) => {
                let to = self.target(x)?;
                let from = self.base(y);
                Some(Action::Load(to, source(&from)?, self.field_behind(&from, f)?))
            }
            Primitive::Store(y, f, v) => {
                let to = self.base(y);
                Some(Action::Store(source(&to)?, self.field_behind(&to, f)?, self.value(v)?))
            }
            Primitive::Print(v) => Some(Action::Print(self.value(v)?)),
        }
    }

    /// A test by numbers, if its names are known.
    fn numbered_test(&self, test: &Test) -> Option<Condition>
        ensures { result ≡ condition_of self.now test.now }
    {
        Some(Condition {
            left: self.value(&test.left)?,
            comparison: test.comparison,
            right: self.value(&test.right)?,
        })
    }

    /// The argument of a call by numbers, where the variables have the numbers from `first` on.
    pub fn argument(&self, first: u16, operand: &Operand) -> Value
        requires few { first + length self.now.locals ≤ most_all_locals }
        requires known { IsSome (operand_of self.now operand.now) }
        ensures { result ≡ argument_in first (operand_of self.now operand.now) }
    {
        let Some(given) = self.operand(operand) else {
            unreachable!();
        };
        moved_value(first, value(given))
    }

    /// A statement without a block by numbers, where the variables have the numbers from `first` on.
    pub fn action(&self, first: u16, site: u16, primitive: &Primitive) -> Action
        requires few { first + length self.now.locals ≤ most_all_locals }
        requires known { IsSome (action_of self.now site primitive.now) }
        ensures { result ≡ moved_action_by first (action_in (action_of self.now site primitive.now)) }
    {
        let Some(action) = self.numbered(site, primitive) else {
            unreachable!();
        };
        moved_action(first, action)
    }

    /// A test by numbers, where the variables have the numbers from `first` on.
    pub fn condition(&self, first: u16, test: &Test) -> Condition
        requires few { first + length self.now.locals ≤ most_all_locals }
        requires known { IsSome (condition_of self.now test.now) }
        ensures { result ≡ moved_condition_by first (condition_in (condition_of self.now test.now)) }
    {
        let Some(condition) = self.numbered_test(test) else {
            unreachable!();
        };
        moved_condition(first, condition)
    }
}
