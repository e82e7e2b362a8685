//! Sessions with an editor: what it sends, what it gets, and the status.

use super::changed::{Chance, changed};
use super::words_of;
use sect_command::command;
use std::alloc::{AllocError, Global};
use std::io;
use std::io::Read;
use std::process::Abort;
use std::sync::Wait;
use std::test::Fail;
use std::thread::Threads;
use std::time::{Clock, CpuClock};

/// An editor begins, and counts by units of UTF-16.
const BEGIN: &str =
    "{\"jsonrpc\":\"2.0\",\"id\":1,\"method\":\"initialize\",\"params\":{\"capabilities\":{}}}";

/// What the server can do.
const ABLE: &str =
    "{\"id\":1,\"jsonrpc\":\"2.0\",\"result\":{\"capabilities\":{\"codeLensProvider\":{},\
    \"completionProvider\":{\"triggerCharacters\":[\".\"]},\"definitionProvider\":true,\
    \"documentHighlightProvider\":true,\"documentSymbolProvider\":true,\"hoverProvider\":true,\
    \"inlayHintProvider\":true,\"positionEncoding\":\"utf-16\",\"referencesProvider\":true,\
    \"renameProvider\":true,\"textDocumentSync\":{\"change\":2,\"openClose\":true}},\
    \"serverInfo\":{\"name\":\"sectc\"}}}";

const SHUT_DOWN: &str = "{\"jsonrpc\":\"2.0\",\"id\":\"last\",\"method\":\"shutdown\"}";

const DOWN: &str = "{\"id\":\"last\",\"jsonrpc\":\"2.0\",\"result\":null}";

const EXIT: &str = "{\"jsonrpc\":\"2.0\",\"method\":\"exit\"}";

/// A text whose x is set to null is opened.
const OPEN: &str =
    "{\"method\":\"textDocument/didOpen\",\"params\":{\"textDocument\":{\"uri\":\"u\",\
    \"text\":\"thread t { int x; x = null; }\"}}}";

const WRONG: &str =
    "{\"jsonrpc\":\"2.0\",\"method\":\"textDocument/publishDiagnostics\",\"params\":{\"diagnostics\":[\
    {\"code\":12,\"message\":\"wrong type: `x` is an int, `null` is a reference\\nboth sides have one type, \
    `+ - * < <=` and `print` take integers, and only a local is assigned to\",\
    \"range\":{\"end\":{\"character\":26,\"line\":0},\"start\":{\"character\":18,\"line\":0}},\
    \"relatedInformation\":[],\"severity\":1,\"source\":\"sectc\"}],\"uri\":\"u\"}}";

/// The null becomes a 7.
const CHANGE: &str =
    "{\"method\":\"textDocument/didChange\",\"params\":{\"textDocument\":{\"uri\":\"u\"},\
    \"contentChanges\":[{\"range\":{\"start\":{\"line\":0,\"character\":22},\"end\":{\"line\":0,\"character\":26}},\
    \"text\":\"7\"}]}}";

const CLOSE: &str =
    "{\"method\":\"textDocument/didClose\",\"params\":{\"textDocument\":{\"uri\":\"u\"}}}";

const CLEAN: &str = "{\"jsonrpc\":\"2.0\",\"method\":\"textDocument/publishDiagnostics\",\
    \"params\":{\"diagnostics\":[],\"uri\":\"u\"}}";

const NO_JSON: &str =
    "{\"error\":{\"code\":-32700,\"message\":\"the message is no JSON\"},\"id\":null,\
    \"jsonrpc\":\"2.0\"}";

const EARLY: &str =
    "{\"error\":{\"code\":-32002,\"message\":\"the server waits for initialize\"},\"id\":\"last\",\
    \"jsonrpc\":\"2.0\"}";

/// A text with a section is opened.
const OPEN_SECTION: &str = "{\"method\":\"textDocument/didOpen\",\
    \"params\":{\"textDocument\":{\"text\":\"record A { int n; \
    } global A a; thread t { int x; atomic { x = a.n; a.n = x; } }\",\"uri\":\"u\"}}}";

/// What stands at its `atomic`.
const HOVER: &str =
    "{\"id\":2,\"method\":\"textDocument/hover\",\"params\":{\"position\":{\"character\":50,\"line\":0},\
    \"textDocument\":{\"uri\":\"u\"}}}";

const HOVERED: &str =
    "{\"id\":2,\"jsonrpc\":\"2.0\",\"result\":{\"contents\":{\"kind\":\"markdown\",\
    \"value\":\"Locks: W a\\n\\n```\\nsection 0 in thread t\\nlock W a\
    \\n  node 0: x = a.n  W a (line 1)\\n  node 1: a.n = x  W a (line 1)\\n```\\n\"}}}";

/// Its locks.
const HINTS: &str =
    "{\"id\":3,\"method\":\"textDocument/inlayHint\",\"params\":{\"textDocument\":{\"uri\":\"u\"}}}";

const HINTED: &str =
    "{\"id\":3,\"jsonrpc\":\"2.0\",\"result\":[{\"label\":\"W a\",\"paddingLeft\":true,\
    \"position\":{\"character\":56,\"line\":0}}]}";

/// Which sections it excludes.
const LENSES: &str =
    "{\"id\":4,\"method\":\"textDocument/codeLens\",\"params\":{\"textDocument\":{\"uri\":\"u\"}}}";

const LENSED: &str = "{\"id\":4,\"jsonrpc\":\"2.0\",\"result\":[{\"command\":{\"command\":\"\",\
    \"title\":\"1 lock · excludes no section\"},\"range\":{\"end\":{\"character\":56,\"line\":0},\
    \"start\":{\"character\":50,\"line\":0}}}]}";

/// What may be written behind its first dot.
const COMPLETION: &str =
    "{\"id\":5,\"method\":\"textDocument/completion\",\"params\":{\"position\":{\"character\":65,\"line\":0},\
    \"textDocument\":{\"uri\":\"u\"}}}";

const COMPLETED: &str = "{\"id\":5,\"jsonrpc\":\"2.0\",\"result\":[{\"kind\":5,\"label\":\"n\"}]}";

/// What is sent, what comes back, and the status.
const SESSIONS: &[(&[&str], &[&str], u8)] = &[
    (&[BEGIN, SHUT_DOWN, EXIT], &[ABLE, DOWN], 0),
    (&[BEGIN, SHUT_DOWN], &[ABLE, DOWN], 0),
    (&[BEGIN, EXIT, SHUT_DOWN], &[ABLE], 1),
    (&[SHUT_DOWN, "no JSON", BEGIN], &[EARLY, NO_JSON, ABLE], 1),
    (
        &[BEGIN, OPEN, CHANGE, CLOSE, CHANGE, SHUT_DOWN, EXIT],
        &[ABLE, WRONG, CLEAN, CLEAN, DOWN],
        0,
    ),
    (
        &[
            BEGIN,
            OPEN_SECTION,
            HOVER,
            HINTS,
            LENSES,
            COMPLETION,
            SHUT_DOWN,
            EXIT,
        ],
        &[ABLE, CLEAN, HOVERED, HINTED, LENSED, COMPLETED, DOWN],
        0,
    ),
];

/// Messages, each behind its header.
fn framed(alloc: Global, messages: &[&str]) -> Result<Vec<u8>, AllocError> {
    let mut all = Vec::new(alloc);
    for message in messages {
        let text = format!(in alloc; "Content-Length: {}\r\n\r\n{message}", message.len())?;
        all.extend_from_slice(text.as_bytes())?;
    }
    Ok(all)
}

/// Gives bytes one at a time.
#[derive(Drop)]
struct Dripping<'a> {
    left: &'a [u8],
}

impl<'a> Read for Dripping<'a> {
    fn read(&mut self, buf: &mut [u8]) -> io::Result<usize> {
        match (self.left.split_first(), buf.is_empty()) {
            (Some((first, rest)), false) => {
                buf[0] = *first;
                self.left = rest;
                Ok(1)
            }
            _ => Ok(0),
        }
    }
}

#[test]
fn sessions_are_served(rt: HostRuntime) -> Result<(), Fail> {
    let words = words_of(rt.alloc(), "lsp")?;
    for (sent, wanted, status) in SESSIONS {
        let input = framed(rt.alloc(), sent)?;
        let output = framed(rt.alloc(), wanted)?;
        let mut whole = Vec::new(rt.alloc());
        let ended = command(&rt, words.as_slice(), input.as_slice(), &mut whole);
        assert_eq!(rt; ended, *status);
        assert!(rt; whole == output);
        let mut dripped = Vec::new(rt.alloc());
        let drips = Dripping {
            left: input.as_slice(),
        };
        assert_eq!(rt;
            command(&rt, words.as_slice(), drips, &mut dripped),
            *status
        );
        assert!(rt; dripped == output);
    }
    Ok(())
}

/// No message begins so: the header has no length, a length above 16 MiB, or more than 1024 bytes.
#[test]
fn malformed_headers_end_the_server(rt: HostRuntime) -> Result<(), Fail> {
    let words = words_of(rt.alloc(), "lsp")?;
    let long = "x".repeat(rt.alloc(), 1024)?;
    for header in [
        "Content-Type: a\r\n\r\n",
        "Content-Length: 16777217\r\n\r\n",
        long.as_str(),
    ] {
        let mut output = Vec::new(rt.alloc());
        let status = command(&rt, words.as_slice(), header.as_bytes(), &mut output);
        assert_eq!(rt; status, 1);
        assert!(rt; output.is_empty());
    }
    Ok(())
}

/// How many conversations are made of each session, 1,002 of all.
const CHANGED: u16 = 167;

/// What is written for an editor are messages, each behind its header, to the end.
fn are_messages(written: &str) -> bool {
    let mut left = written;
    for _ in 0..written.len() {
        let Some((header, rest)) = left.split_once("\r\n\r\n") else {
            break;
        };
        let length = header.strip_prefix("Content-Length: ").unwrap_or("");
        match rest.split_at_checked(length.parse().unwrap_or(usize::MAX)) {
            Some((_, behind)) => left = behind,
            None => return false,
        }
    }
    left.is_empty()
}

/// A conversation ends with the status 0 or 1, and all that is written are messages.
fn expect_served(
    rt: &(impl Threads + Wait + Sync + Clock + CpuClock + AllocGlobal + Abort),
    input: &[u8],
) -> Result<(), Fail> {
    let words = words_of(rt.alloc(), "lsp")?;
    let mut whole = Vec::new(rt.alloc());
    let status = command(rt, words.as_slice(), input, &mut whole);
    assert!(rt; status <= 1);
    let written = String::from_utf8_lossy(rt.alloc(), whole.as_slice())?;
    assert!(rt; are_messages(written.as_str()), "{written}");
    Ok(())
}

#[test]
fn changed_sessions_are_served(rt: HostRuntime) -> Result<(), Fail> {
    let mut chance = Chance { state: 4 };
    for (sent, _, _) in SESSIONS {
        let session = framed(rt.alloc(), sent)?;
        for _ in 0..CHANGED {
            let input = changed(rt.alloc(), session.as_slice(), &mut chance)?;
            expect_served(&rt, input.as_slice())?;
        }
    }
    Ok(())
}
