//! The question that a text asks.

ghost use Rattle.std.specs.Prelude.{IfOk, IfErr};
ghost use Rattle.sect_asking.specs.Asking.{IsAskedBy, IsFault};

use crate::cursor::{Cursor, Stop};
use crate::resolving::{Misfit, question};
use sect_questions::Question;
use sect_types::Program;
use std::alloc::Global;
use thiserror::Error;

/// Why a text asks no question of a program. Places are offsets in it.
#[derive(Clone, Copy, Debug, PartialEq, Eq, Error)]
pub enum QuestionFault {
    #[error("out of memory")]
    Memory,
    /// The first word is no question's.
    #[error("this begins no question")]
    BadQuestion,
    /// No question goes on so here, or here is an operator too many.
    #[error("no question goes on so")]
    BadCondition(usize),
    /// No global, field or thread has this name.
    #[error("nothing has this name")]
    UnknownName(usize),
    /// An integer beside a reference, references to two records, `<` or a sum of references, a field of an integer.
    #[error("kinds don't fit")]
    WrongKind(usize),
}

/// The question that a text asks of a program.
pub fn read_question(
    alloc: Global,
    program: &Program,
    bytes: &[u8],
) -> Result<Question, QuestionFault>
    // What is answered is the question that the text spells.
    ensures right { IfOk result (IsAskedBy program.now bytes.now) }
    ensures fault { IfErr result (IsFault program.now bytes.now) }
{
    let mut cursor = Cursor::new(bytes);
    let Some(asks) = cursor.first_word() else {
        return Err(QuestionFault::BadQuestion);
    };
    let phrase = match cursor.rest(alloc, asks) {
        Ok(phrase) => phrase,
        Err(Stop::Memory) => return Err(QuestionFault::Memory),
        Err(Stop::Here) => {
            let place = bytes.len().saturating_sub(cursor.left());
            return Err(QuestionFault::BadCondition(place));
        }
    };
    match question(alloc, program, &phrase) {
        Ok(asked) => Ok(asked),
        Err(Misfit::Memory) => Err(QuestionFault::Memory),
        Err(Misfit::Unknown(left)) => {
            Err(QuestionFault::UnknownName(bytes.len().saturating_sub(left)))
        }
        Err(Misfit::Kind(left)) => Err(QuestionFault::WrongKind(bytes.len().saturating_sub(left))),
    }
}
