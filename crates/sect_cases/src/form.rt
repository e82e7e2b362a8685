//! The forms of the lines in a file of cases.

/// What a line of a file of cases is.
#[derive(Clone, Copy)]
pub enum Form<'a> {
    /// A comment or an empty line.
    Remark,
    /// `$ sectc WORDS`: a case begins, with these words of its command line.
    Command(&'a str),
    /// `<$ sectc WORDS`: the input begins with what this command prints of the rest of the input.
    Before(&'a str),
    /// A piece of the input.
    Input(Piece<'a>),
    /// What is printed next.
    Print(Print<'a>),
    /// `! TEXT`: the next line on standard error has this text in it.
    Complaint(Print<'a>),
    /// `= STATUS`: the exit status, where it isn't 0.
    Status(u8),
}

/// A piece of an input.
#[derive(Clone, Copy)]
pub enum Piece<'a> {
    /// `< TEXT`: a line, with its line feed.
    Line(&'a str),
    /// `<@ FILE`: all bytes of a file.
    File(&'a str),
    /// `<% TEXT`: the bytes of this text without a line feed, in which `\x` and two digits are one byte.
    Bytes(&'a str),
    /// `<* TIMES TEXT`: these bytes, so many times.
    Repeated(u32, &'a str),
    /// `<: MESSAGE`: a message of an editor, behind its header.
    Message(&'a str),
}

/// What is printed.
#[derive(Clone, Copy)]
pub enum Print<'a> {
    /// `> TEXT`: the next line is this one.
    Line(&'a str),
    /// `>~ TEXT`: the next line has this text in it.
    Holding(&'a str),
    /// `>..`: lines up to the first that is as the case says next, or to the end.
    AnyLines,
}

/// The form of a line, which stands without its line feed. There is none where it begins as no form does.
pub fn form_of(line: &str) -> Option<Form<'_>> {
    let (mark, rest) = line.split_once(' ').unwrap_or((line, ""));
    match mark {
        "" | "#" if rest.is_empty() || mark == "#" => Some(Form::Remark),
        "$" => Some(Form::Command(rest.strip_prefix("sectc")?)),
        "<$" => Some(Form::Before(rest.strip_prefix("sectc")?)),
        "=" => Some(Form::Status(rest.parse().ok()?)),
        ">" => Some(Form::Print(Print::Line(rest))),
        "!" => Some(Form::Complaint(Print::Holding(rest))),
        ">~" => Some(Form::Print(Print::Holding(rest))),
        ">.." if rest.is_empty() => Some(Form::Print(Print::AnyLines)),
        mark => Some(Form::Input(piece_of(mark, rest)?)),
    }
}

/// The piece of an input that stands behind a mark.
fn piece_of<'a>(mark: &str, rest: &'a str) -> Option<Piece<'a>> {
    match mark {
        "<" => Some(Piece::Line(rest)),
        "<@" => Some(Piece::File(rest)),
        "<%" => Some(Piece::Bytes(rest)),
        "<:" => Some(Piece::Message(rest)),
        "<*" => {
            let (times, text) = rest.split_once(' ')?;
            Some(Piece::Repeated(times.parse().ok()?, text))
        }
        _ => None,
    }
}
