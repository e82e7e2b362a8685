//! A compiled program in C.

ghost use Rattle.std.specs.{Prelude.{◌≡◌, ◌<◌, ◌++◌, ℕ, length, IfOk, OnOk}, String.{string_bytes}};
ghost use Rattle.sect_types.specs.Statements.{TextView};
ghost use Rattle.sect_emit.specs.{Compiled.{program_of}, Listing.{by_number}};
ghost use Rattle.sect_c.specs.Declarations.{opening_c, structure_c, global_line, plan_c, case_c};
ghost use Rattle.sect_c.specs.Programs.{wholes_c, declarations_c, fields_c, thread_entry, global_entry, name_entry};
ghost use Rattle.sect_c.specs.Programs.{threads_c, globals_c, names_c, description_c, main_c, head_c, runtime_c};
ghost use Rattle.sect_c.specs.Programs.{c_text, IsInC};
ghost use Rattle.sect_c.specs.{Emitted.{IsEmitted}, Sections.{thread_c}};

use crate::context::{Context, Emitted};
use crate::declarations::{put_case, put_global_line, put_opening, put_plan, put_structure};
use crate::naming::put_global;
use crate::runtime::{OPENING, RUNTIME};
use crate::threads::put_thread;
use crate::words::put_words;
use sect_conflicts::taken_keys;
use sect_emit::Compiled;
use sect_types::Program;
use std::alloc::{AllocError, Global};
use std::fmt::Write;

/// Adds that there are the records.
fn put_openings(text: &mut String, program: &Program) -> Result<(), AllocError>
    ensures { OnOk result (string_bytes text.new
        ≡ string_bytes text.old ++ by_number (opening_c program.now) 0 program.now.records) }
{
    program.facts();
    let records = program.records();
    for of in 0..records.len() {
        put_opening(text, program, of as u16)?;
    }
    Ok(())
}

/// Adds the structures of the records.
fn put_structures(text: &mut String, context: &Context<'_>) -> Result<(), AllocError>
    ensures { OnOk result (string_bytes text.new ≡ string_bytes text.old ++ by_number
        (structure_c context.now.program.now context.now.looked.now) 0 context.now.program.now.records) }
{
    context.program.facts();
    let records = context.program.records();
    for of in 0..records.len() {
        put_structure(text, context, of as u16)?;
    }
    Ok(())
}

/// Adds the objects of the globals.
fn put_globals(text: &mut String, program: &Program) -> Result<(), AllocError>
    ensures { OnOk result (string_bytes text.new
        ≡ string_bytes text.old ++ by_number (global_line program.now) 0 program.now.globals) }
{
    program.facts();
    let globals = program.globals();
    for global in 0..globals.len() {
        put_global_line(text, program, global as u16, globals[global])?;
    }
    Ok(())
}

/// Adds the keys that the sections take in every state.
fn put_plans(text: &mut String, emitted: &Emitted<'_>) -> Result<(), AllocError>
    requires { IsEmitted emitted.now.compiled.now emitted.now.taken.now emitted.now.looked.now }
    ensures { OnOk result (string_bytes text.new
        ≡ string_bytes text.old ++ by_number plan_c 0 emitted.now.taken.now.parts) }
{
    let program = emitted.compiled.scheme().program();
    for section in 0..program.section_count() {
        put_plan(text, section, emitted.taken.part(section))?;
    }
    Ok(())
}

/// Adds the keys of all objects and of the classes.
fn put_wholes(text: &mut String, program: &Program) -> Result<(), AllocError>
    ensures { OnOk result (string_bytes text.new ≡ string_bytes text.old ++ wholes_c program.now) }
{
    let keys = program.site_count() as u32 + 1;
    text.push_str("static struct sect_whole wholes[")?;
    write!(text, "{keys}")?;
    text.push_str("];\n")?;
    Ok(())
}

/// Adds the records, the globals, the keys of all objects and of the classes, and the plans.
fn put_declarations(text: &mut String, emitted: &Emitted<'_>) -> Result<(), AllocError>
    requires { IsEmitted emitted.now.compiled.now emitted.now.taken.now emitted.now.looked.now }
    ensures { OnOk result (string_bytes text.new
        ≡ string_bytes text.old ++ declarations_c emitted.now.compiled.now emitted.now.taken.now) }
{
    let program = emitted.compiled.scheme().program();
    let context = Context {
        program,
        looked: emitted.looked,
    };
    put_openings(text, program)?;
    put_structures(text, &context)?;
    put_globals(text, program)?;
    put_wholes(text, program)?;
    put_plans(text, emitted)
}

/// Adds the threads.
fn put_threads(text: &mut String, emitted: &Emitted<'_>) -> Result<(), AllocError>
    requires { IsEmitted emitted.now.compiled.now emitted.now.taken.now emitted.now.looked.now }
    ensures { OnOk result (string_bytes text.new ≡ string_bytes text.old ++ by_number
        (thread_c emitted.now.compiled.now emitted.now.taken.now) 0 (program_of emitted.now.compiled.now).texts) }
{
    let program = emitted.compiled.scheme().program();
    for thread in 0..program.thread_count() {
        put_thread(text, emitted, thread)?;
    }
    Ok(())
}

/// Adds what shows the fields of the records' objects, record by record.
fn put_cases(text: &mut String, context: &Context<'_>) -> Result<(), AllocError>
    ensures { OnOk result (string_bytes text.new ≡ string_bytes text.old ++ by_number
        (case_c context.now.program.now context.now.looked.now) 0 context.now.program.now.records) }
{
    context.program.facts();
    let records = context.program.records();
    for of in 0..records.len() {
        put_case(text, context, of as u16)?;
    }
    Ok(())
}

/// Adds what shows the fields of an object.
fn put_fields(text: &mut String, context: &Context<'_>) -> Result<(), AllocError>
    ensures { OnOk result (string_bytes text.new
        ≡ string_bytes text.old ++ fields_c context.now.program.now context.now.looked.now) }
{
    text.push_str(
        "\nstatic void fields(const struct sect_program *program, struct sect_object *object) {\n",
    )?;
    text.push_str("  (void)program;\n  switch (object->record) {\n")?;
    put_cases(text, context)?;
    text.push_str("  }\n}\n")?;
    Ok(())
}

/// Adds the name of a thread's function to a list.
fn put_thread_entry(text: &mut String, thread: u16) -> Result<(), AllocError>
    ensures { OnOk result ((of : TextView) → string_bytes text.new ≡ string_bytes text.old ++ thread_entry thread of) }
{
    Ok(write!(text, " thread_{thread},")?)
}

/// Adds the names of the threads' functions.
fn put_thread_entries(text: &mut String, program: &Program) -> Result<(), AllocError>
    ensures { OnOk result (string_bytes text.new
        ≡ string_bytes text.old ++ by_number thread_entry 0 program.now.texts) }
{
    for thread in 0..program.thread_count() {
        put_thread_entry(text, thread)?;
    }
    Ok(())
}

/// Adds the object of a global to a list.
fn put_global_entry(text: &mut String, program: &Program, global: u16) -> Result<(), AllocError>
    requires { global < length program.now.globals }
    ensures { OnOk result ((of : ℕ) → string_bytes text.new
        ≡ string_bytes text.old ++ global_entry program.now.source global of) }
{
    text.push_str(" &")?;
    put_global(text, program, global)?;
    text.push_str(".head,")
}

/// Adds the objects of the globals to a list.
fn put_global_entries(text: &mut String, program: &Program) -> Result<(), AllocError>
    ensures { OnOk result (string_bytes text.new
        ≡ string_bytes text.old ++ by_number (global_entry program.now.source) 0 program.now.globals) }
{
    program.facts();
    let globals = program.globals();
    for global in 0..globals.len() {
        put_global_entry(text, program, global as u16)?;
    }
    Ok(())
}

/// Adds the name of a global to a list.
fn put_name_entry(text: &mut String, program: &Program, global: u16) -> Result<(), AllocError>
    requires { global < length program.now.globals }
    ensures { OnOk result ((of : ℕ) → string_bytes text.new
        ≡ string_bytes text.old ++ name_entry program.now.source global of) }
{
    let named = &program.tree().globals()[global as usize];
    Ok(write!(text, " \"{}\",", named.name)?)
}

/// Adds the names of the globals to a list.
fn put_name_entries(text: &mut String, program: &Program) -> Result<(), AllocError>
    ensures { OnOk result (string_bytes text.new
        ≡ string_bytes text.old ++ by_number (name_entry program.now.source) 0 program.now.globals) }
{
    program.facts();
    let globals = program.globals();
    for global in 0..globals.len() {
        put_name_entry(text, program, global as u16)?;
    }
    Ok(())
}

/// Adds the list of the threads' functions.
fn put_thread_list(text: &mut String, program: &Program) -> Result<(), AllocError>
    ensures { OnOk result (string_bytes text.new ≡ string_bytes text.old ++ threads_c program.now) }
{
    text.push_str("  static void (*const threads[])(struct sect_thread *) = {")?;
    put_thread_entries(text, program)?;
    text.push_str(" NULL };\n")?;
    Ok(())
}

/// Adds the list of the globals' objects.
fn put_global_list(text: &mut String, program: &Program) -> Result<(), AllocError>
    ensures { OnOk result (string_bytes text.new ≡ string_bytes text.old ++ globals_c program.now) }
{
    text.push_str("  static struct sect_object *const globals[] = {")?;
    put_global_entries(text, program)?;
    text.push_str(" NULL };\n")?;
    Ok(())
}

/// Adds the list of the globals' names.
fn put_name_list(text: &mut String, program: &Program) -> Result<(), AllocError>
    ensures { OnOk result (string_bytes text.new ≡ string_bytes text.old ++ names_c program.now) }
{
    text.push_str("  static const char *const names[] = {")?;
    put_name_entries(text, program)?;
    text.push_str(" NULL };\n")?;
    Ok(())
}

/// Adds what describes the program to the part that is the same for all.
fn put_description(text: &mut String, program: &Program) -> Result<(), AllocError>
    ensures { OnOk result (string_bytes text.new ≡ string_bytes text.old ++ description_c program.now) }
{
    let threads = program.thread_count();
    text.push_str("  static const struct sect_program program = { ")?;
    write!(text, "{threads}")?;
    text.push_str(", threads, globals, names, fields };\n")?;
    Ok(())
}

/// Adds the function in which the program begins.
fn put_main(text: &mut String, program: &Program) -> Result<(), AllocError>
    ensures { OnOk result (string_bytes text.new ≡ string_bytes text.old ++ main_c program.now) }
{
    text.push_str("\nint main(int count, char **words) {\n")?;
    put_thread_list(text, program)?;
    put_global_list(text, program)?;
    put_name_list(text, program)?;
    put_description(text, program)?;
    text.push_str("  (void)wholes;\n  return sect_main(&program, count, words);\n}\n")?;
    Ok(())
}

/// Adds what stands before the constants of the modes.
fn put_head(text: &mut String) -> Result<(), AllocError>
    ensures { OnOk result (string_bytes text.new ≡ string_bytes text.old ++ head_c) }
{
    text.push_str(OPENING)?;
    Ok(())
}

/// Adds what stands behind them, and is the same for all programs.
fn put_runtime(text: &mut String) -> Result<(), AllocError>
    ensures { OnOk result (string_bytes text.new ≡ string_bytes text.old ++ runtime_c) }
{
    text.push_str(RUNTIME)?;
    Ok(())
}

/// Adds a compiled program.
fn put_program(text: &mut String, emitted: &Emitted<'_>) -> Result<(), AllocError>
    requires { IsEmitted emitted.now.compiled.now emitted.now.taken.now emitted.now.looked.now }
    ensures { OnOk result (string_bytes text.new
        ≡ string_bytes text.old ++ c_text emitted.now.compiled.now emitted.now.taken.now) }
{
    let program = emitted.compiled.scheme().program();
    let context = Context {
        program,
        looked: emitted.looked,
    };
    put_head(text)?;
    put_words(text)?;
    put_runtime(text)?;
    text.push_str("\n/* ---- the program ---- */\n\n")?;
    put_declarations(text, emitted)?;
    put_threads(text, emitted)?;
    put_fields(text, &context)?;
    put_main(text, program)
}

/// The bytes of a compiled program.
fn text_of(alloc: Global, emitted: &Emitted<'_>) -> Result<Vec<u8>, AllocError>
    requires { IsEmitted emitted.now.compiled.now emitted.now.taken.now emitted.now.looked.now }
    ensures { IfOk result (λ text. text.items ≡ c_text emitted.now.compiled.now emitted.now.taken.now) }
{
    let mut text = String::new(alloc);
    put_program(&mut text, emitted)?;
    Ok(text.into_bytes())
}

/// A compiled program in C, with all that it needs of a library of its own: one text, which a compiler of C11 with
/// threads of POSIX takes. Its sections take those of their keys that may keep another thread out.
pub fn c_program(alloc: Global, compiled: &Compiled) -> Result<Vec<u8>, AllocError>
    ensures { IfOk result (λ text. IsInC compiled.now text.items) }
{
    let taken = taken_keys(alloc, compiled)?;
    let fields = taken.looked(alloc)?;
    let emitted = Emitted {
        compiled,
        taken: &taken,
        looked: fields.as_slice(),
    };
    let text = text_of(alloc, &emitted)?;
    Ok(text)
}
