//! A session with an editor.

ghost use Rattle.std.specs.Prelude.{◌≡◌, ◌⊎◌};
ghost use Rattle.sect_command.specs.{Statuses.{failed}, Telling.{IsServed}};

use crate::statuses::FAILED;
use sect_lsp::serve;
use std::alloc::Global;
use std::io::{Read, Write};

/// Serves an editor until one of the two ends. It gives the exit status.
pub fn served<I: Read + Drop, O: Write>(alloc: Global, mut input: I, output: &mut O) -> u8
    ensures { (result ≡ failed)
        ⊎ IsServed (I.remaining input) (O.contents output.old) (O.contents output.new) result }
{
    match serve(alloc, &mut input, output) {
        Ok(status) => status,
        Err(_) => FAILED,
    }
}
