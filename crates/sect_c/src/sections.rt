//! Sections in C.

ghost use Rattle.std.specs.Prelude.{◌≡◌, ◌<◌, ◌-◌, ◌++◌, Some, length, slice_get, OnOk};
ghost use Rattle.std.specs.{List.{flat_map}, String.{string_bytes}};
ghost use Rattle.sect_types.specs.Sections.{SectionView, sections_of};
ghost use Rattle.sect_points.specs.Paths.{fields_of};
ghost use Rattle.sect_names.specs.{Locks.{IsField, IsVariable, IsPathOf}, Printing.{IsNamed, AreNamed}};
ghost use Rattle.sect_emit.specs.{Compiled.{program_of}, Listing.{by_number}};
ghost use Rattle.sect_c.specs.Sections.{follow_c, first_c, walk_c, look_c, again_c, second_look_c, entry_c, end_c};
ghost use Rattle.sect_c.specs.{Emitted.{IsEmitted}, Sections.{section_c}};
ghost use Rattle.sect_names.specs.declared.lock.Lock.TheVariants.{Path as OnPath};

use crate::context::{Context, Emitted, Standing};
use crate::naming::{put_field, put_type, put_variable};
use crate::statements::{put_nodes, put_place};
use crate::types::{field_type, variable_type};
use sect_emit::{GraphOf, object_mode};
use sect_names::{Effect, Lock, Path, put_locks, put_path};
use sect_points::Variable;
use sect_types::{Field, Program};
use std::alloc::AllocError;
use std::fmt::Write;

/// Adds what leads from the object before this place on a path to the one at it.
fn put_follow(
    text: &mut String,
    program: &Program,
    read: &str,
    place: usize,
    field: Field,
) -> Result<(), AllocError>
    requires field { IsField program.now field }
    requires place { 0 < place }
    ensures { OnOk result (string_bytes text.new
        ≡ string_bytes text.old ++ follow_c program.now read.now (place - 1) field) }
{
    let before = place - 1;
    text.push_str(" ")?;
    put_type(text, program, field_type(program, field))?;
    write!(
        text,
        "p{place} = p{before} == NULL ? NULL : {read}(&p{before}->"
    )?;
    put_field(text, program, field)?;
    text.push_str(");")?;
    Ok(())
}

/// Adds the first object of a path that begins with this variable.
fn put_first(text: &mut String, program: &Program, variable: Variable) -> Result<(), AllocError>
    requires { IsVariable program.now variable }
    ensures { OnOk result (string_bytes text.new ≡ string_bytes text.old ++ first_c program.now variable) }
{
    text.push_str("  { ")?;
    put_type(text, program, variable_type(program, variable))?;
    text.push_str("p0 = ")?;
    put_variable(text, program, variable)?;
    text.push_str(";")?;
    Ok(())
}

/// Adds the objects along a path behind the first, each looked up in this way.
fn put_follows(
    text: &mut String,
    program: &Program,
    read: &str,
    path: &Path,
) -> Result<(), AllocError>
    requires { IsPathOf program.now path.now }
    ensures { OnOk result (string_bytes text.new
        ≡ string_bytes text.old ++ by_number (follow_c program.now read.now) 0 (fields_of path.now)) }
{
    let fields = path.fields();
    for place in 0..fields.len() {
        put_follow(text, program, read, place + 1, fields[place])?;
    }
    Ok(())
}

/// Adds the objects along a path, each looked up in this way, and the test that the last is there.
fn put_walk(text: &mut String, program: &Program, read: &str, path: &Path) -> Result<(), AllocError>
    requires { IsPathOf program.now path.now }
    ensures { OnOk result (string_bytes text.new
        ≡ string_bytes text.old ++ walk_c program.now read.now path.now) }
{
    put_first(text, program, path.base())?;
    put_follows(text, program, read, path)?;
    text.push_str(" if (p")?;
    write!(text, "{}", path.fields().len())?;
    text.push_str(" != NULL")?;
    Ok(())
}

/// Adds the first look of a section at a path: its object is wanted.
fn put_path_look(
    text: &mut String,
    program: &Program,
    path: &Path,
    effect: Effect,
) -> Result<(), AllocError>
    requires { IsPathOf program.now path.now }
    ensures { OnOk result (string_bytes text.new
        ≡ string_bytes text.old ++ look_c program.now (OnPath path.now effect)) }
{
    put_walk(text, program, "SECT_LOOK", path)?;
    let fields = path.fields();
    let mode = object_mode(effect);
    let last = fields.len();
    write!(text, ") sect_want(me, &p{last}->head, SECT_{mode}); }} /* ")?;
    put_path(text, program, path)?;
    text.push_str(" */\n")?;
    Ok(())
}

/// Adds the first look of a section at the path of a lock, if it is on one.
fn put_look(text: &mut String, program: &Program, lock: &Lock) -> Result<(), AllocError>
    requires { IsNamed program.now lock.now }
    ensures { OnOk result (string_bytes text.new ≡ string_bytes text.old ++ look_c program.now lock.now) }
{
    match lock {
        Lock::Path(path, effect) => put_path_look(text, program, path, *effect),
        Lock::All | Lock::Class(_, _) => Ok(()),
    }
}

/// Adds the second look of a section at a path that has fields.
fn put_again(
    text: &mut String,
    program: &Program,
    section: u16,
    path: &Path,
    effect: Effect,
) -> Result<(), AllocError>
    requires { IsPathOf program.now path.now }
    ensures { OnOk result (string_bytes text.new
        ≡ string_bytes text.old ++ again_c program.now section path.now effect) }
{
    put_walk(text, program, "SECT_GET", path)?;
    let fields = path.fields();
    let mode = object_mode(effect);
    let last = fields.len();
    write!(
        text,
        " && !sect_holds(me, &p{last}->head, SECT_{mode})) {{ sect_give(me); goto s{section}; }} }}\n"
    )?;
    Ok(())
}

/// Adds the second look of a section at a path, if another thread may have changed what it denotes.
fn put_path_again(
    text: &mut String,
    program: &Program,
    section: u16,
    path: &Path,
    effect: Effect,
) -> Result<(), AllocError>
    requires { IsPathOf program.now path.now }
    ensures { OnOk result (string_bytes text.new
        ≡ string_bytes text.old ++ second_look_c program.now section (OnPath path.now effect)) }
{
    let fields = path.fields();
    let count = fields.len();
    if count == 0 {
        return Ok(());
    }
    put_again(text, program, section, path, effect)
}

/// Adds the second look of a section at the path of a lock, if it is on one.
fn put_second_look(
    text: &mut String,
    program: &Program,
    section: u16,
    lock: &Lock,
) -> Result<(), AllocError>
    requires { IsNamed program.now lock.now }
    ensures { OnOk result (string_bytes text.new
        ≡ string_bytes text.old ++ second_look_c program.now section lock.now) }
{
    match lock {
        Lock::Path(path, effect) => put_path_again(text, program, section, path, *effect),
        Lock::All | Lock::Class(_, _) => Ok(()),
    }
}

/// Adds the first look of a section at these paths.
fn put_looks(text: &mut String, program: &Program, paths: &[Lock]) -> Result<(), AllocError>
    requires { AreNamed program.now paths.now }
    ensures { OnOk result (string_bytes text.new ≡ string_bytes text.old ++ flat_map (look_c program.now) paths.now) }
{
    for lock in paths {
        put_look(text, program, lock)?;
    }
    Ok(())
}

/// Adds the second look of a section at these paths.
fn put_second_looks(
    text: &mut String,
    program: &Program,
    section: u16,
    paths: &[Lock],
) -> Result<(), AllocError>
    requires { AreNamed program.now paths.now }
    ensures { OnOk result (string_bytes text.new
        ≡ string_bytes text.old ++ flat_map (second_look_c program.now section) paths.now) }
{
    for lock in paths {
        put_second_look(text, program, section, lock)?;
    }
    Ok(())
}

/// Adds the entry of a section with these locks, which takes the keys of the objects that these paths denote.
fn put_entry(
    text: &mut String,
    program: &Program,
    section: u16,
    locks: &[Lock],
    paths: &[Lock],
) -> Result<(), AllocError>
    requires locks { AreNamed program.now locks.now }
    requires paths { AreNamed program.now paths.now }
    ensures { OnOk result (string_bytes text.new
        ≡ string_bytes text.old ++ entry_c program.now section locks.now paths.now) }
{
    write!(
        text,
        " s{section}: sect_plan(me, plan_{section}); /* section {section}: "
    )?;
    put_locks(text, program, locks)?;
    text.push_str(" */\n")?;
    put_looks(text, program, paths)?;
    text.push_str("  sect_take(me);\n")?;
    put_second_looks(text, program, section, paths)?;
    Ok(write!(text, "  goto s{section}_0;\n")?)
}

/// Adds the end of a section, where its ticket is drawn, and then its keys go back.
fn put_end(text: &mut String, section: u16, exit: u16) -> Result<(), AllocError>
    ensures { OnOk result (string_bytes text.new ≡ string_bytes text.old ++ end_c section exit) }
{
    text.push_str(" ")?;
    put_place(text, GraphOf::Section(section), exit)?;
    text.push_str(": sect_ticket(me);\n")?;
    text.push_str("  sect_give(me);\n")?;
    Ok(write!(text, "  goto s{section}_left;\n")?)
}

/// Adds a section.
pub fn put_section(text: &mut String, emitted: &Emitted<'_>, section: u16) -> Result<(), AllocError>
    requires within { section < length (sections_of (program_of emitted.now.compiled.now).texts) }
    requires emitted { IsEmitted emitted.now.compiled.now emitted.now.taken.now emitted.now.looked.now }
    ensures { OnOk result ((of : SectionView)
        → slice_get (sections_of (program_of emitted.now.compiled.now).texts) section ≡ Some of → string_bytes text.new
        ≡ string_bytes text.old ++ section_c emitted.now.compiled.now emitted.now.taken.now section of) }
{
    let compiled = emitted.compiled;
    compiled.facts();
    let program = compiled.scheme().program();
    let paths = emitted.taken.paths(section);
    put_entry(text, program, section, compiled.set(section), paths)?;
    let flow = compiled.scheme().graph().section(section);
    let exit = flow.exit();
    let standing = Standing {
        graph: GraphOf::Section(section),
        thread: program.section(section).thread,
        exit,
    };
    let context = Context {
        program,
        looked: emitted.looked,
    };
    put_nodes(text, &context, &standing, flow)?;
    put_end(text, section, exit)
}
