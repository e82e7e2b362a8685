//! Threads in C.

ghost use Rattle.std.specs.Prelude.{◌≡◌, ◌<◌, ◌++◌, [], Some, length, slice_get, slice_index_or, OnOk};
ghost use Rattle.std.specs.String.{string_bytes};
ghost use Rattle.sect_types.specs.{Statements.{TextView}, Sections.{SectionView, sections_of}};
ghost use Rattle.sect_emit.specs.{Compiled.{program_of}, Listing.{by_number}, Naming.{IsLocalOf}};
ghost use Rattle.sect_c.specs.{Emitted.{IsEmitted}, Naming.{local_type as local_by}};
ghost use Rattle.sect_c.specs.Sections.{own_section_c, first_value_c, local_line, thread_opening_c};
ghost use Rattle.sect_c.specs.Sections.{exit_c, thread_statements_c, thread_c};

use crate::context::{Context, Emitted, Standing};
use crate::naming::{put_local, put_type};
use crate::sections::put_section;
use crate::statements::{put_nodes, put_place};
use crate::types::local_type;
use sect_emit::{GraphOf, put_thread_name};
use sect_types::{Program, ValueType};
use std::alloc::AllocError;
use std::fmt::Write;

/// How a local begins, to the name that follows.
fn first_value(of: ValueType) -> &'static str
    ensures { result.now ≡ first_value_c of }
{
    match of {
        ValueType::Int => " = 0; (void)",
        ValueType::Refers(_) => " = NULL; (void)",
    }
}

/// Adds the declaration of a local.
fn put_local_line(
    text: &mut String,
    program: &Program,
    thread: u16,
    local: u16,
) -> Result<(), AllocError>
    requires { IsLocalOf program.now thread local }
    ensures { OnOk result (string_bytes text.new
        ≡ string_bytes text.old ++ local_line program.now thread local (local_by program.now thread local)) }
{
    let of = local_type(program, thread, local);
    text.push_str("  ")?;
    put_type(text, program, of)?;
    put_local(text, program, thread, local)?;
    text.push_str(first_value(of))?;
    put_local(text, program, thread, local)?;
    text.push_str(";\n")
}

/// Adds the declarations of a thread's locals.
fn put_locals(text: &mut String, program: &Program, thread: u16) -> Result<(), AllocError>
    requires { thread < length program.now.texts }
    ensures { OnOk result (string_bytes text.new ≡ string_bytes text.old
        ++ by_number (local_line program.now thread) 0 (slice_index_or program.now.locals thread [])) }
{
    program.facts();
    let locals = program.locals();
    let own = locals[thread as usize].as_slice();
    for local in 0..own.len() {
        put_local_line(text, program, thread, local as u16)?;
    }
    Ok(())
}

/// Adds a section, if it is this thread's.
fn put_own_section(
    text: &mut String,
    emitted: &Emitted<'_>,
    thread: u16,
    section: u16,
) -> Result<(), AllocError>
    requires within { section < length (sections_of (program_of emitted.now.compiled.now).texts) }
    requires emitted { IsEmitted emitted.now.compiled.now emitted.now.taken.now emitted.now.looked.now }
    ensures { OnOk result ((of : SectionView)
        → slice_get (sections_of (program_of emitted.now.compiled.now).texts) section ≡ Some of → string_bytes text.new
        ≡ string_bytes text.old ++ own_section_c emitted.now.compiled.now emitted.now.taken.now thread section of) }
{
    if emitted.compiled.scheme().program().section(section).thread == thread {
        put_section(text, emitted, section)
    } else {
        Ok(())
    }
}

/// Adds the sections of a thread.
fn put_sections(text: &mut String, emitted: &Emitted<'_>, thread: u16) -> Result<(), AllocError>
    requires { IsEmitted emitted.now.compiled.now emitted.now.taken.now emitted.now.looked.now }
    ensures { OnOk result (string_bytes text.new ≡ string_bytes text.old ++ by_number
        (own_section_c emitted.now.compiled.now emitted.now.taken.now thread) 0
        (sections_of (program_of emitted.now.compiled.now).texts)) }
{
    let program = emitted.compiled.scheme().program();
    for section in 0..program.section_count() {
        put_own_section(text, emitted, thread, section)?;
    }
    Ok(())
}

/// Adds what stands before a thread's statements.
fn put_opening(text: &mut String, program: &Program, thread: u16) -> Result<(), AllocError>
    requires { thread < length program.now.texts }
    ensures { OnOk result (string_bytes text.new ≡ string_bytes text.old ++ thread_opening_c program.now thread) }
{
    text.push_str("\n/* thread ")?;
    put_thread_name(text, program, thread)?;
    write!(
        text,
        " */\nstatic void thread_{thread}(struct sect_thread *me) {{\n"
    )?;
    put_locals(text, program, thread)?;
    text.push_str(
        "  uint64_t fuel = me->fuel; (void)fuel;\n  enum sect_end end = SECT_DONE;\n  goto n0;\n",
    )?;
    Ok(())
}

/// Adds the statements of a thread, and its end.
fn put_statements(text: &mut String, emitted: &Emitted<'_>, thread: u16) -> Result<(), AllocError>
    requires within { thread < length (program_of emitted.now.compiled.now).texts }
    requires emitted { IsEmitted emitted.now.compiled.now emitted.now.taken.now emitted.now.looked.now }
    ensures { OnOk result ((of : TextView) → slice_get (program_of emitted.now.compiled.now).texts thread ≡ Some of
        → string_bytes text.new ≡ string_bytes text.old
        ++ thread_statements_c emitted.now.compiled.now emitted.now.taken.now thread of) }
{
    let compiled = emitted.compiled;
    compiled.facts();
    let program = compiled.scheme().program();
    let _facts = program.text(thread);
    let flow = compiled.scheme().graph().thread(thread);
    let exit = flow.exit();
    let standing = Standing {
        graph: GraphOf::Thread(thread),
        thread,
        exit,
    };
    let context = Context {
        program,
        looked: emitted.looked,
    };
    put_nodes(text, &context, &standing, flow)?;
    put_exit(text, thread, exit)
}

/// Adds the end of a thread's statements.
fn put_exit(text: &mut String, thread: u16, exit: u16) -> Result<(), AllocError>
    ensures { OnOk result (string_bytes text.new ≡ string_bytes text.old ++ exit_c thread exit) }
{
    text.push_str(" ")?;
    put_place(text, GraphOf::Thread(thread), exit)?;
    text.push_str(": me->end = end;\n  return;\n")?;
    Ok(())
}

/// Adds a thread.
pub fn put_thread(text: &mut String, emitted: &Emitted<'_>, thread: u16) -> Result<(), AllocError>
    requires within { thread < length (program_of emitted.now.compiled.now).texts }
    requires emitted { IsEmitted emitted.now.compiled.now emitted.now.taken.now emitted.now.looked.now }
    ensures { OnOk result ((of : TextView) → slice_get (program_of emitted.now.compiled.now).texts thread ≡ Some of
        → string_bytes text.new ≡ string_bytes text.old
        ++ thread_c emitted.now.compiled.now emitted.now.taken.now thread of) }
{
    let program = emitted.compiled.scheme().program();
    put_opening(text, program, thread)?;
    put_statements(text, emitted, thread)?;
    put_sections(text, emitted, thread)?;
    text.push_str("}\n")?;
    Ok(())
}
