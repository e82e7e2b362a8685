//! A text that is painted line by line.

ghost use Rattle.std.specs.{Prelude.{◌≡◌, ◌++◌, IfOk, OnOk}, List.{flat_map}};
ghost use Rattle.sect_paint.specs.Painting.{line_stretches, painted_bytes, painted_text};

use crate::find::cut;
use crate::looks::{Kind, Look, looks, tone};
use crate::style::{Style, put};
use std::alloc::{AllocError, Global};

/// Adds a line that looks so.
fn put_line(text: &mut Vec<u8>, looks: Look, line: &[u8]) -> Result<(), AllocError>
    ensures { OnOk result (text.new.items
        ≡ text.old.items ++ flat_map painted_bytes (line_stretches looks line.now)) }
{
    let (margin, behind) = cut(line, looks.margin);
    let (gap, rest) = cut(behind, looks.gap);
    let (mark, end) = cut(rest, looks.mark);
    put(text, looks.frame, margin)?;
    put(text, Style::Plain, gap)?;
    put(text, looks.style, mark)?;
    put(text, Style::Plain, end)
}

/// A text of this kind, each of its lines painted by its own form.
pub fn painted(alloc: Global, of: Kind, text: &[u8]) -> Result<Vec<u8>, AllocError>
    ensures { IfOk result (λ painted. painted.items ≡ painted_text of text.now) }
{
    let tone = tone(text);
    let mut painted = Vec::new(alloc);
    let mut line = Vec::new(alloc);
    for byte in text {
        if *byte == b'\n' {
            put_line(
                &mut painted,
                looks(of, tone, line.as_slice()),
                line.as_slice(),
            )?;
            painted.push(b'\n')?;
            line.clear();
        } else {
            line.push(*byte)?;
        }
    }
    put_line(
        &mut painted,
        looks(of, tone, line.as_slice()),
        line.as_slice(),
    )?;
    Ok(painted)
}
