//! Objects, and lists of them.

ghost use Rattle.std.specs.Prelude.{◌≡◌, ◌++◌, ◌∷◌, [], map, slice_get, slice_index_or, option_copied, IfOk, OnOk};
ghost use Rattle.std.specs.{Prelude.{OnErr}, Cmp.{partial_equiv_from_equiv}};
ghost use Rattle.sect_lemmas.specs.Lists.{changed_at};
ghost use Rattle.sect_types.specs.{Store.{with_field}, Meaning.{datum_or_null, first_datum, fresh}};
ghost use Rattle.sect_store.specs.Undoing.{without_end};
ghost use Rattle.sect_store.specs.Comparing.{object_eq, object_fed, object_equivalence, object_alike, objects_eq};
ghost use Rattle.sect_store.specs.Comparing.{objects_fed, objects_equivalence, objects_alike};

use crate::value::first;
use sect_types::{Datum, Program, ValueType};
use std::alloc::{AllocError, Global};
use std::hash::{Hash, Hasher};
use std::marker::Model;

/// What data of these types hold at the start.
pub fn first_data(alloc: Global, types: &[ValueType]) -> Result<Vec<Datum>, AllocError>
    ensures { IfOk result (λ all. all.items ≡ map first_datum types.now) }
{
    let mut all = Vec::with_capacity(alloc, types.len())?;
    for of in types {
        all.push_reserved(first(*of));
    }
    Ok(all)
}

/// An object: the site at which it was made, and its fields.
#[derive(Drop)]
pub struct Object {
    site: u16,
    fields: Vec<Datum>,
}

impl Model for Object {
    ghost use Rattle.sect_types.specs.Store.{ObjectView};

    ghost Value = { ObjectView };

    ghost view = { λ o. record { site = o.site; fields = o.fields.items } };
}

impl Object {
    /// An object that is just made at a site, with fields of these types.
    fn fresh(alloc: Global, site: u16, types: &[ValueType]) -> Result<Object, AllocError>
        ensures { IfOk result (λ object. object ≡ fresh site types.now) }
    {
        let fields = first_data(alloc, types)?;
        Ok(Object { site, fields })
    }

    /// An object of a record that is just made at a site; it has no field where there is no such record.
    pub(crate) fn of_record(
        alloc: Global,
        program: &Program,
        of: u16,
        site: u16,
    ) -> Result<Object, AllocError>
        ensures { IfOk result (λ object. object ≡ fresh site (slice_index_or program.now.records of [])) }
    {
        let object = match program.records().get(of as usize) {
            None => Object::fresh(alloc, site, &[])?,
            Some(types) => Object::fresh(alloc, site, types.as_slice())?,
        };
        Ok(object)
    }

    /// The site at which it was made; the number of the global, where it is a global's.
    pub fn site(&self) -> u16
        ensures { result ≡ self.now.site }
    {
        self.site
    }

    /// What its fields hold, by number.
    pub fn fields(&self) -> &[Datum]
        ensures { result.now ≡ self.now.fields }
    {
        self.fields.as_slice()
    }

    /// An object equal to this one.
    fn try_clone(&self) -> Result<Object, AllocError>
        ensures { IfOk result (λ object. object ≡ self.now) }
    {
        Ok(Object {
            site: self.site,
            fields: Vec::from_slice(*self.fields.allocator(), self.fields.as_slice())?,
        })
    }

    /// What a field holds; null where there is no such field.
    pub fn field(&self, number: u16) -> Datum
        ensures { result ≡ datum_or_null (slice_get self.now.fields number) }
    {
        match self.fields.get(number as usize) {
            None => Datum::Null,
            Some(datum) => *datum,
        }
    }

    /// Writes to a field, where there is such a field.
    fn put(&mut self, number: u16, datum: Datum)
        ensures { self.new ≡ with_field number datum self.old }
    {
        if let Some(field) = self.fields.get_mut(number as usize) {
            *field = datum;
        }
    }
}

impl PartialEq for Object {
    ghost eq = { object_eq };

    ghost laws = { partial_equiv_from_equiv object_equivalence };

    fn eq(&self, other: &Object) -> bool {
        self.site() == other.site() && self.fields() == other.fields()
    }
}

impl Eq for Object {
    ghost laws = { object_equivalence };
}

impl Hash for Object {
    ghost hash_input = { object_fed };

    ghost respects_eq = { object_alike.fed };

    fn hash<H: Hasher>(&self, state: &mut H) {
        self.fields().hash(state);
    }
}

/// Objects, by number.
#[derive(Drop)]
pub struct Objects {
    list: Vec<Object>,
}

impl Model for Objects {
    ghost use Rattle.std.specs.Prelude.{List};
    ghost use Rattle.sect_types.specs.Store.{ObjectView};

    ghost Value = { List ObjectView };

    ghost view = { λ o. o.list.items };
}

impl Objects {
    /// No objects.
    pub fn new(alloc: Global) -> Objects
        ensures { result ≡ [] }
    {
        Objects {
            list: Vec::new(alloc),
        }
    }

    /// The objects, by number.
    pub fn as_slice(&self) -> &[Object]
        ensures { result.now ≡ self.now }
    {
        self.list.as_slice()
    }

    /// Objects equal to these.
    pub fn try_clone(&self) -> Result<Objects, AllocError>
        ensures { IfOk result (λ objects. objects ≡ self.now) }
    {
        let mut list = Vec::new(*self.list.allocator());
        for object in self.list.as_slice() {
            list.push(object.try_clone()?)?;
        }
        Ok(Objects { list })
    }

    /// The object of this number.
    pub fn get(&self, number: usize) -> Option<&Object>
        ensures { option_copied result ≡ slice_get self.now number }
    {
        self.list.get(number)
    }

    /// One object more, at the end.
    pub fn push(&mut self, object: Object) -> Result<(), AllocError>
        ensures ok { OnOk result (self.new ≡ self.old ++ object ∷ []) }
        ensures err { OnErr result (self.new ≡ self.old) }
    {
        self.list.push(object)?;
        Ok(())
    }

    /// One object less, the last.
    pub fn pop(&mut self)
        ensures { self.new ≡ without_end self.old }
    {
        self.list.pop();
    }

    /// Writes to a field of the object of this number, where there is one.
    pub fn put(&mut self, number: usize, field: u16, datum: Datum)
        ensures { self.new ≡ changed_at number (with_field field datum) self.old }
    {
        if let Some(object) = self.list.get_mut(number) {
            object.put(field, datum);
        }
    }
}

impl PartialEq for Objects {
    ghost eq = { objects_eq };

    ghost laws = { partial_equiv_from_equiv objects_equivalence };

    fn eq(&self, other: &Objects) -> bool {
        self.as_slice() == other.as_slice()
    }
}

impl Eq for Objects {
    ghost laws = { objects_equivalence };
}

impl Hash for Objects {
    ghost hash_input = { objects_fed };

    ghost respects_eq = { objects_alike.fed };

    fn hash<H: Hasher>(&self, state: &mut H) {
        self.as_slice().hash(state);
    }
}
