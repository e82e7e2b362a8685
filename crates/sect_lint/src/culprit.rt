//! What is at fault in a tree.

ghost use Rattle.std.specs.Prelude.{◌≡◌, ◌<◌, ◌≤◌, ◌+◌, ◌^◌, IfOk};
ghost use Rattle.sect_lint.specs.Places.{of_types, of_scheme, record_item as record_item_by, item_number, marked};

use crate::mistake::Mistake;
use sect_front::{Record, Tree};
use sect_names::SchemeFault;
use sect_places::TokenRange;
use sect_types::TypeFault;
use std::alloc::AllocError;

/// What is at fault in a tree, by its number.
#[derive(Clone, Copy)]
pub enum Culprit {
    Item(usize),
    Record(usize),
}

impl Culprit {
    /// The item that is at fault.
    pub fn of_types(fault: &TypeFault) -> Culprit
        ensures { result ≡ of_types fault.now }
    {
        match fault {
            TypeFault::Memory => Culprit::Item(0),
            TypeFault::Unknown { item }
            | TypeFault::Twice { item }
            | TypeFault::WrongType { item }
            | TypeFault::SharedOutside { item }
            | TypeFault::Nested { item }
            | TypeFault::TooMany { item }
            | TypeFault::Recursion { item }
            | TypeFault::Arguments { item } => Culprit::Item(*item as usize),
        }
    }

    /// The record that is at fault.
    pub fn of_scheme(fault: &SchemeFault) -> Culprit
        ensures { result ≡ of_scheme fault.now }
    {
        match fault {
            SchemeFault::Memory | SchemeFault::BadK => Culprit::Record(0),
            SchemeFault::NoSuchGlobal { record }
            | SchemeFault::GuardIsGuarded { record }
            | SchemeFault::HintTwice { record } => Culprit::Record(*record as usize),
        }
    }

    /// The number of the item that is at fault.
    pub fn item(self, tree: &Tree) -> Result<usize, AllocError>
        ensures { IfOk result (λ item. item ≡ item_number tree.now self) }
    {
        match self {
            Culprit::Item(item) => Ok(item),
            Culprit::Record(number) => record_item(tree.records(), number),
        }
    }
}

/// The number of the item that stands so many behind another. At the end of a `usize` the answer is a want of memory,
/// as no memory holds so many.
fn past(item: usize, count: usize) -> Result<usize, AllocError>
    ensures { IfOk result (λ n. n ≡ item + count) }
{
    item.checked_add(count).ok_or(AllocError)
}

/// The number of the item of a record.
fn record_item(records: &[Record], number: usize) -> Result<usize, AllocError>
    ensures { IfOk result (λ item. item ≡ record_item_by records.now number) }
{
    let mut item = 0usize;
    let mut left = number;
    for declared in records {
        if left == 0 {
            return Ok(item);
        }
        item = past(item, 1 + declared.fields.as_slice().len())?;
        left -= 1;
    }
    Ok(item)
}

/// The tokens of an item that the carets stand under.
pub fn marked_range(mistake: Mistake, range: TokenRange) -> TokenRange
    requires some { 0 < range.count }
    requires fits { range.first + range.count < 2 ^ 64 }
    ensures is { result ≡ marked mistake range }
    ensures some { 0 < result.count }
    ensures within { result.first + result.count ≤ range.first + range.count }
{
    match mistake {
        Mistake::Twice => TokenRange {
            first: range.first + range.count - 1,
            count: 1,
        },
        _ => range,
    }
}
