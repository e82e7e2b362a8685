//! What stands behind the number of a class.

ghost use Rattle.std.specs.{Prelude.{◌≡◌, ◌++◌, IfOk, OnOk, map}, List.{flat_map}, String.{string_bytes}};
ghost use Rattle.sect_legend.specs.Legend.{AreClassLines, class_line, listed, names_of_class};
ghost use Rattle.sect_legend.specs.Legend.{site_names as site_names_by};
ghost use Rattle.sect_legend.specs.Legend.{ArePlaced, mark_of};

use crate::places::Places;
use crate::sites::site_names;
use sect_points::Classes;
use std::alloc::{AllocError, Global};
use std::fmt::Write;

/// What the sites of a class are called, where each site's class and what it is called is given.
fn names_in<'a>(
    alloc: Global,
    class: u16,
    numbers: &[u16],
    names: &'a [String],
) -> Result<Vec<&'a str>, AllocError>
    ensures { IfOk result (λ found. map (λ name. name.now) found.items
        ≡ names_of_class class numbers.now (map string_bytes names.now)) }
{
    let mut found = Vec::new(alloc);
    for site in 0..numbers.len().min(names.len()) {
        if numbers[site] == class {
            found.push(names[site].as_str())?;
        }
    }
    Ok(found)
}

/// Adds names with `, ` between them.
fn put_listed(text: &mut String, names: &[&str]) -> Result<(), AllocError>
    ensures { OnOk result (string_bytes text.new ≡ string_bytes text.old ++ listed (map (λ name. name.now) names.now)) }
{
    let Some((first, others)) = names.split_first() else {
        return Ok(());
    };
    text.push_str(first)?;
    for other in others {
        text.push_str(", ")?;
        text.push_str(other)?;
    }
    Ok(())
}

/// Adds the line of a class.
fn put_class(
    alloc: Global,
    text: &mut String,
    class: u16,
    numbers: &[u16],
    names: &[String],
) -> Result<(), AllocError>
    ensures { OnOk result (string_bytes text.new
        ≡ string_bytes text.old ++ class_line numbers.now (map string_bytes names.now) class) }
{
    write!(text, "class {class}: ")?;
    put_listed(text, names_in(alloc, class, numbers, names)?.as_slice())?;
    text.push_str("\n")
}

/// A line for each of these classes, where what their sites are called is given.
fn lines_of(alloc: Global, classes: &Classes, names: &[String]) -> Result<String, AllocError>
    ensures { IfOk result (λ text. AreClassLines classes.now.numbers (map string_bytes names.now)
        (string_bytes text)) }
{
    let mut text = String::new(alloc);
    for class in 0..classes.class_count() {
        put_class(alloc, &mut text, class, classes.numbers(), names)?;
    }
    Ok(text)
}

/// A line for each class, with what its sites are called.
pub fn class_lines(alloc: Global, places: &Places<'_>) -> Result<String, AllocError>
    requires { ArePlaced places.now }
    ensures { IfOk result (λ text. AreClassLines places.now.compiled.now.scheme.classes.numbers
        (site_names_by places.now.compiled.now (mark_of places.now) places.now.source.now
        places.now.spans.now.sections) (string_bytes text)) }
{
    let names = site_names(alloc, places)?;
    lines_of(alloc, places.compiled.scheme().classes(), names.as_slice())
}
