//! What paths denote in a state.

ghost use Rattle.std.specs.Prelude.{◌≡◌};
ghost use Rattle.sect_emit.specs.Plan.{variable_datum as held_by, field_of as field_in, path_datum as denoted};

use sect_names::Path;
use sect_points::Variable;
use sect_store::{Store, Work};
use sect_types::{Datum, ObjectName};

/// What a variable holds for a thread that works with this; the object of a global is always there.
fn variable_datum(work: &Work, variable: Variable) -> Datum
    ensures { result ≡ held_by work.now.locals variable }
{
    match variable {
        Variable::Global(global) => Datum::Refers(ObjectName::Global(global)),
        Variable::Local(_, local) => work.local(local),
    }
}

/// What a field holds of the object to which a datum refers; null where there is no such object.
fn field_of(store: &Store, datum: Datum, field: u16) -> Datum
    ensures { result ≡ field_in store.now datum field }
{
    let Datum::Refers(name) = datum else {
        return Datum::Null;
    };
    match store.object(name) {
        None => Datum::Null,
        Some(object) => object.field(field),
    }
}

/// What a path denotes; null where it goes through null.
pub fn path_datum(store: &Store, work: &Work, path: &Path) -> Datum
    ensures { result ≡ denoted store.now work.now.locals path.now }
{
    let mut datum = variable_datum(work, path.base());
    for field in path.fields() {
        datum = field_of(store, datum, field.number);
    }
    datum
}
