//! A session over any reader and writer.

ghost use Rattle.std.specs.Prelude.{◌≡◌, ◌≤◌, ◌++◌, ℕ, List, false, IfOk, OnOk, IfSome, map};
ghost use Rattle.std.specs.{Io.KnownBytes.{Appends, Consumes, IsAtEnd}, String.{string_bytes}};
ghost use Rattle.serde_json.specs.View.{view};
ghost use Rattle.sect_lsp.specs.{Framing.{frame}, Sessions.{is_ended, status_by, IsTextOf, AreSent, IsSession}};
ghost use Rattle.sect_lsp.specs.steps.Underway.{IsAnswered};

use crate::framing::{Front, Inbox, Taken, frame_of};
use crate::server::{Phase, Server};
use serde_json::Value;
use std::alloc::{AllocError, Global};
use std::io;
use std::io::{ErrorKind, Read, Write};

/// The most bytes that are read at once.
const PIECE: usize = 8192;

/// The text of a message, behind its header.
fn text_of(alloc: Global, message: &Value) -> Result<String, AllocError>
    ensures { IfOk result (λ bytes. (text : List ℕ) × IsTextOf (view message.now) text
        × (string_bytes bytes ≡ frame text)) }
{
    let text = message.to_string(alloc)?;
    frame_of(alloc, text.as_str())
}

/// Writes messages, one behind the other.
fn put_messages<O: Write>(alloc: Global, output: &mut O, messages: &[Value]) -> io::Result<()>
    ensures { OnOk result ((sent : List ℕ) × AreSent (map view messages.now) sent
        × Appends (O.contents output.old) (O.contents output.new) sent) }
{
    for message in messages {
        let text = text_of(alloc, message)?;
        output.write_all(text.as_bytes())?;
    }
    Ok(())
}

/// Writes messages, so that the editor gets them now.
fn send<O: Write>(alloc: Global, output: &mut O, messages: &[Value]) -> io::Result<()>
    ensures { OnOk result ((sent : List ℕ) × AreSent (map view messages.now) sent
        × Appends (O.contents output.old) (O.contents output.new) sent) }
{
    put_messages(alloc, output, messages)?;
    output.flush()?;
    Ok(())
}

/// Takes a message, and writes what goes out for it.
fn answer<O: Write>(
    alloc: Global,
    server: &mut Server,
    message: &[u8],
    output: &mut O,
) -> io::Result<()>
    ensures { OnOk result (IsAnswered server.old message.now server.new (O.contents output.old)
        (O.contents output.new)) }
{
    let messages = server.step(alloc, message)?;
    send(alloc, output, messages.as_slice())?;
    Ok(())
}

/// Reads a piece of the input, and tells whether there was more.
fn read_piece<I: Read>(input: &mut I, inbox: &mut Inbox) -> io::Result<bool>
    ensures piece { OnOk result ((piece : List ℕ) × Consumes (I.remaining input.old) (I.remaining input.new) piece
        × (inbox.new ≡ inbox.old ++ piece)) }
    ensures end { IfOk result (λ more. more ≡ false → IsAtEnd (I.remaining input.old)) }
{
    let mut piece = [0u8; PIECE];
    match input.read(&mut piece) {
        Ok(count) => {
            inbox.put(&piece[..count])?;
            Ok(count > 0)
        }
        Err(error) => {
            if error.kind() == ErrorKind::Interrupted {
                Ok(true)
            } else {
                Err(error)
            }
        }
    }
}

/// Whether nothing more is taken.
fn has_ended(phase: Phase) -> bool
    ensures { result ≡ is_ended phase }
{
    matches!(phase, Phase::Done | Phase::Abandoned)
}

/// The status of the program, where the bytes end so.
fn status_of(phase: Phase, front: Front) -> u8
    ensures status { result ≡ status_by phase front }
    ensures most { result ≤ 1 }
{
    match (phase, front) {
        (Phase::Done, _) | (Phase::ShutDown, Front::Part) => 0,
        _ => 1,
    }
}

/// Serves an editor until it ends the session, the input ends, or no message begins with what comes. It gives the exit
/// status: 0 if the server was shut down before, else 1.
pub fn serve<I: Read, O: Write>(alloc: Global, input: &mut I, output: &mut O) -> io::Result<u8>
    // What is written stands behind what the writer has, and is that of a session where the reader's bytes are known.
    ensures session { IfOk result (λ status. (sent : List ℕ)
        × Appends (O.contents output.old) (O.contents output.new) sent
        × IfSome (I.remaining input.old) (λ bytes. IsSession bytes sent status)) }
    ensures status { IfOk result (λ status. status ≤ 1) }
{
    let mut inbox = Inbox::new(alloc);
    let mut server = Server::new(alloc);
    for _turn in 0..u64::MAX {
        match inbox.next()? {
            Taken::Message(message) => {
                answer(alloc, &mut server, message.as_slice(), output)?;
                if has_ended(server.phase()) {
                    return Ok(status_of(server.phase(), Front::Part));
                }
            }
            Taken::Part => {
                if !read_piece(input, &mut inbox)? {
                    return Ok(status_of(server.phase(), Front::Part));
                }
            }
            Taken::Malformed => return Ok(status_of(server.phase(), Front::Malformed)),
        }
    }
    Err(io::Error::from(ErrorKind::Other))
}
