//! The turns of a run as they are printed.

ghost use Rattle.std.specs.{Prelude.{◌≡◌, ◌++◌, OnOk}, String.{string_bytes}};
ghost use Rattle.sect_answers.specs.Turns.{event_text, more_text, block_text, turn_lines};
ghost use Rattle.sect_lemmas.specs.Blocks.{AreEnough, blocks_of};

use sect_draw::put_deed;
use sect_types::Program;
use sect_world::Event;
use std::alloc::AllocError;
use std::fmt::Write;

/// Adds a line for each turn of a schedule: its number, and the events that it made, or `none`. `made` says of each
/// turn how many of the events are its own.
pub fn put_turns(
    text: &mut String,
    program: &Program,
    made: &[usize],
    events: &[Event],
) -> Result<(), AllocError>
    requires { AreEnough made.now events.now }
    ensures { OnOk result (string_bytes text.new
        ≡ string_bytes text.old ++ turn_lines program.now (blocks_of made.now events.now)) }
{
    let mut left = events;
    for (turn, count) in made.iter().enumerate() {
        let (block, after) = left.split_at(*count);
        write!(text, "turn {turn}: ")?;
        put_block(text, program, block)?;
        left = after;
    }
    Ok(())
}

/// Adds the events of a turn, to the end of its line.
fn put_block(text: &mut String, program: &Program, block: &[Event]) -> Result<(), AllocError>
    ensures { OnOk result (string_bytes text.new ≡ string_bytes text.old ++ block_text program.now block.now) }
{
    let Some((first, rest)) = block.split_first() else {
        return text.push_str("none\n");
    };
    put_event(text, program, first)?;
    put_more(text, program, rest)?;
    text.push_str("\n")
}

/// Adds the events of a turn behind its first one.
fn put_more(text: &mut String, program: &Program, events: &[Event]) -> Result<(), AllocError>
    ensures { OnOk result (string_bytes text.new ≡ string_bytes text.old ++ more_text program.now events.now) }
{
    for event in events {
        text.push_str(", ")?;
        put_event(text, program, event)?;
    }
    Ok(())
}

/// Adds an event: its thread, and what that does.
fn put_event(text: &mut String, program: &Program, event: &Event) -> Result<(), AllocError>
    ensures { OnOk result (string_bytes text.new ≡ string_bytes text.old ++ event_text program.now event.now) }
{
    write!(text, "{} ", event.thread)?;
    put_deed(text, program, event.deed)
}
