//! Comments that are questions.

use sect_questions::{AskedComment, asked_in};
use std::alloc::AllocGlobal;
use std::test::Fail;

/// Three comments, of which the second alone asks, and one inside another.
const ASKING: &[u8] = b"// no question\n//? ends\nthread t { } // is it //? not\n//?";

/// A question stands on this line, and has these bytes.
fn is_asked(asked: &AskedComment, line: usize, text: &[u8]) -> bool {
    asked.line == line && ASKING.get(asked.span.start..asked.span.end) == Some(text)
}

#[test]
fn comments_that_ask(rt: HostRuntime) -> Result<(), Fail> {
    let found = asked_in(rt.alloc(), ASKING)?;
    assert!(&rt; found.len() == 2);
    assert!(&rt; is_asked(&found[0], 2, b" ends"));
    assert!(&rt; is_asked(&found[1], 4, b""));
    Ok(())
}
