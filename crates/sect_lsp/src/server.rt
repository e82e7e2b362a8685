//! The server: what it knows, and what comes of each message.

ghost use Rattle.std.specs.Prelude.{◌≡◌, ◌≤◌, ◌∷◌, [], IfOk, IfSome, map, option_map};
ghost use Rattle.serde_json.specs.{Find.{as_str, as_array}, View.{view, items_view}};
ghost use Rattle.sect_lsp.specs.Protocol.{kind_of};
ghost use Rattle.sect_lsp.specs.Server.{asked_by, told_by, has_text as has_text_by, encoding_of as encoding_by};
ghost use Rattle.sect_lsp.specs.Server.{k_of as k_by, encoding_name, sync_json, completion_json, able_json};
ghost use Rattle.sect_lsp.specs.Server.{capabilities_json, phase_after_exit, diagnostics_json, text_at_opening};
ghost use Rattle.sect_lsp.specs.Server.{text_after, uri_of, in_phase, start, RepliesServing, RepliesBy, Notes, NotesOf};
ghost use Rattle.sect_lsp.specs.Server.{Receives, Step, Keeps, Begins, Forgets, reading_of, IsTextReply};
ghost use Rattle.sect_lsp.specs.{Server.{IsDocumentReply}, Documents.{text_of}};
ghost use Rattle.sect_lsp.specs.steps.Replying.{reply_view};

use crate::change::after_changes;
use crate::documents::Documents;
use crate::limits::{DEFAULT_K, MOST_K};
use crate::protocol::{RequestError, is_id, notification_message, read, refusal_message};
use crate::reply::{Reply, reply_with, response};
use sect_editor::{Encoding, Judged, OpenText, Query, Question, Reading, answer, judge, text_at};
use serde_json::{Value, json};
use std::alloc::{AllocError, Global};
use std::marker::Model;

/// What may come now.
#[derive(Clone, Copy)]
pub enum Phase {
    /// Nothing but `initialize` may be asked.
    Waiting,
    Serving,
    /// Nothing but `exit` may come.
    ShutDown,
    /// The server was shut down and has ended.
    Done,
    /// The server has ended without being shut down.
    Abandoned,
}

/// What an editor asks.
#[derive(Clone, Copy)]
pub enum Asked {
    Initialize,
    Shutdown,
    /// Something of a document.
    Document(Question),
    Unknown,
}

/// What an editor tells.
#[derive(Clone, Copy)]
pub enum Told {
    Exit,
    Opened,
    Changed,
    Closed,
    Other,
}

/// What a method asks.
fn asked_of(method: &str) -> Asked
    ensures { result ≡ asked_by method.now }
{
    match method {
        "initialize" => Asked::Initialize,
        "shutdown" => Asked::Shutdown,
        "textDocument/documentSymbol" => Asked::Document(Question::Symbols),
        "textDocument/definition" => Asked::Document(Question::Names(Query::Definition)),
        "textDocument/references" => Asked::Document(Question::Names(Query::References)),
        "textDocument/documentHighlight" => Asked::Document(Question::Names(Query::Highlights)),
        "textDocument/rename" => Asked::Document(Question::Names(Query::Rename)),
        "textDocument/hover" => Asked::Document(Question::Hover),
        "textDocument/inlayHint" => Asked::Document(Question::Hints),
        "textDocument/codeLens" => Asked::Document(Question::Lenses),
        "textDocument/completion" => Asked::Document(Question::Completion),
        _ => Asked::Unknown,
    }
}

/// What a method tells.
fn told_of(method: &str) -> Told
    ensures { result ≡ told_by method.now }
{
    match method {
        "exit" => Told::Exit,
        "textDocument/didOpen" => Told::Opened,
        "textDocument/didChange" => Told::Changed,
        "textDocument/didClose" => Told::Closed,
        _ => Told::Other,
    }
}

/// Whether a text is among these values.
fn has_text(values: &[Value], text: &str) -> bool
    ensures { result ≡ has_text_by text.now (items_view values.now) }
{
    for value in values {
        if let Some(other) = value.as_str() {
            if other == text {
                return true;
            }
        }
    }
    false
}

/// How columns are counted with an editor that begins so: by bytes, if it offers that.
fn encoding_of(message: &Value) -> Encoding
    ensures { result ≡ encoding_by (view message.now) }
{
    let offered = message
        .pointer("/params/capabilities/general/positionEncodings")
        .and_then(Value::as_array);
    match offered {
        Some(names) => {
            if has_text(names.as_slice(), "utf-8") {
                Encoding::Utf8
            } else {
                Encoding::Utf16
            }
        }
        None => Encoding::Utf16,
    }
}

/// The most fields of a path with an editor that begins so.
fn k_of(message: &Value) -> Option<u16>
    ensures k { result ≡ k_by (view message.now) }
    ensures most { IfSome result (λ k. k ≤ MOST_K) }
{
    match message.pointer("/params/initializationOptions/k") {
        None => Some(DEFAULT_K),
        Some(value) => {
            let k = value.as_u64()?;
            if k <= u64::from(MOST_K) {
                Some(k as u16)
            } else {
                None
            }
        }
    }
}

/// The name of an encoding.
fn name_of(encoding: Encoding) -> &'static str
    ensures { result.now ≡ encoding_name encoding }
{
    match encoding {
        Encoding::Utf8 => "utf-8",
        Encoding::Utf16 => "utf-16",
    }
}

/// A change is the whole text or a range, and documents are opened and closed.
fn sync_value(alloc: Global) -> Result<Value, AllocError>
    ensures { IfOk result (λ v. view v ≡ sync_json) }
{
    json!(in alloc; {"change": 2, "openClose": true})
}

/// Completion is asked for behind a dot, too.
fn completion_options(alloc: Global) -> Result<Value, AllocError>
    ensures { IfOk result (λ v. view v ≡ completion_json) }
{
    json!(in alloc; {"triggerCharacters": ["."]})
}

/// What may be asked.
fn able_value(alloc: Global, encoding: Encoding) -> Result<Value, AllocError>
    ensures { IfOk result (λ v. view v ≡ able_json encoding) }
{
    let name = name_of(encoding);
    json!(in alloc; {
        "codeLensProvider": {},
        "completionProvider": completion_options(alloc)?,
        "definitionProvider": true,
        "documentHighlightProvider": true,
        "documentSymbolProvider": true,
        "hoverProvider": true,
        "inlayHintProvider": true,
        "positionEncoding": name,
        "referencesProvider": true,
        "renameProvider": true,
        "textDocumentSync": sync_value(alloc)?
    })
}

/// What the server can do.
fn capabilities(alloc: Global, encoding: Encoding) -> Result<Value, AllocError>
    ensures { IfOk result (λ v. view v ≡ capabilities_json encoding) }
{
    json!(in alloc; {"capabilities": able_value(alloc, encoding)?, "serverInfo": {"name": "sectc"}})
}

/// The message that the diagnostics of a document are these.
fn diagnostics_message(alloc: Global, uri: &str, diagnostics: Value) -> Result<Value, AllocError>
    ensures { IfOk result (λ v. view v ≡ diagnostics_json uri.now (view diagnostics)) }
{
    let params = json!(in alloc; {"diagnostics": diagnostics, "uri": uri})?;
    notification_message(alloc, "textDocument/publishDiagnostics", params)
}

/// One message.
fn one(alloc: Global, message: Value) -> Result<Vec<Value>, AllocError>
    ensures { IfOk result (λ out. map view out.items ≡ view message ∷ []) }
{
    let mut out = Vec::new(alloc);
    out.push(message)?;
    Ok(out)
}

/// The text of a document that is opened.
fn opened_text(alloc: Global, message: &Value) -> Result<Option<Vec<u8>>, AllocError>
    ensures { IfOk result (λ text. option_map (λ t. t.items) text ≡ text_at_opening (view message.now)) }
{
    match text_at(message, "/params/textDocument/text") {
        Some(text) => Ok(Some(Vec::from_slice(alloc, text.as_bytes())?)),
        None => Ok(None),
    }
}

/// A language server for texts of the language, between two messages.
#[derive(Drop)]
pub struct Server {
    phase: Phase,
    encoding: Encoding,
    documents: Documents,
}

impl Model for Server {
    ghost use Rattle.sect_lsp.specs.Server.{ServerView};
    ghost use Rattle.sect_lsp.specs.steps.Keeping.{AreOpenIn};

    ghost Value = { ServerView };

    ghost view = { λ s. record {
      phase = s.phase;
      k = s.documents.k;
      encoding = s.encoding;
      documents = s.documents.documents;
    } };

    ghost invariant = { λ s. AreOpenIn s.phase s.documents.documents };
}

impl Server {
    /// A server that has just been started.
    pub fn new(alloc: Global) -> Server
        ensures { result ≡ start }
    {
        Server {
            phase: Phase::Waiting,
            encoding: Encoding::Utf16,
            documents: Documents::new(alloc, DEFAULT_K),
        }
    }

    /// What may come now.
    pub fn phase(&self) -> Phase
        ensures { result ≡ self.now.phase }
    {
        self.phase
    }

    /// Begins to serve.
    fn begin(&mut self, alloc: Global, message: &Value) -> Result<Reply, AllocError>
        requires { self.old.phase ≡ Phase.Waiting }
        ensures { IfOk result (λ reply. Begins self.old (view message.now) (k_by (view message.now))
            (reply_view reply) self.new) }
    {
        let Some(k) = k_of(message) else {
            return Ok(Reply::Error(RequestError::InvalidParams));
        };
        let encoding = encoding_of(message);
        let able = capabilities(alloc, encoding)?;
        self.phase = Phase::Serving;
        self.encoding = encoding;
        self.documents = Documents::new(alloc, k);
        Ok(Reply::Result(able))
    }

    /// How texts are read.
    fn reading(&self) -> Reading
        ensures reading { result ≡ reading_of self.now }
        ensures most { result.k ≤ MOST_K }
    {
        Reading {
            k: self.documents.k(),
            encoding: self.encoding,
        }
    }

    /// Answers what is asked of the text of a document.
    fn answer_text(
        &self,
        alloc: Global,
        question: Question,
        uri: &str,
        message: &Value,
    ) -> Result<Reply, AllocError>
        ensures { IfOk result (λ reply. IsTextReply self.now question (view message.now) uri.now
            (text_of uri.now self.now.documents) (reply_view reply)) }
    {
        let Some(document) = self.documents.find(uri) else {
            return Ok(Reply::Error(RequestError::InvalidParams));
        };
        let text = OpenText {
            uri,
            source: document.text(),
            reading: self.reading(),
            compiled: document.compiled(),
        };
        Ok(reply_with(answer(alloc, question, text, message)?))
    }

    /// Answers what is asked of a document.
    fn answer_document(
        &self,
        alloc: Global,
        question: Question,
        message: &Value,
    ) -> Result<Reply, AllocError>
        ensures { IfOk result (λ reply. IsDocumentReply self.now question (view message.now)
            (uri_of (view message.now)) (reply_view reply)) }
    {
        match text_at(message, "/params/textDocument/uri") {
            Some(uri) => self.answer_text(alloc, question, uri, message),
            None => Ok(Reply::Error(RequestError::InvalidParams)),
        }
    }

    /// Answers what is asked while it serves.
    fn reply_serving(
        &mut self,
        alloc: Global,
        asked: Asked,
        message: &Value,
    ) -> Result<Reply, AllocError>
        ensures { IfOk result (λ reply. RepliesServing self.old asked (view message.now) (reply_view reply) self.new) }
    {
        match asked {
            Asked::Initialize => Ok(Reply::Error(RequestError::InvalidRequest)),
            Asked::Shutdown => {
                self.phase = Phase::ShutDown;
                Ok(Reply::Result(Value::Null))
            }
            Asked::Document(question) => self.answer_document(alloc, question, message),
            Asked::Unknown => Ok(Reply::Error(RequestError::MethodNotFound)),
        }
    }

    /// Answers what is asked.
    fn reply(&mut self, alloc: Global, asked: Asked, message: &Value) -> Result<Reply, AllocError>
        ensures { IfOk result (λ reply. RepliesBy self.old.phase self.old asked (view message.now) (reply_view reply)
            self.new) }
    {
        match self.phase {
            Phase::Waiting => match asked {
                Asked::Initialize => self.begin(alloc, message),
                _ => Ok(Reply::Error(RequestError::ServerNotInitialized)),
            },
            Phase::Serving => self.reply_serving(alloc, asked, message),
            Phase::ShutDown | Phase::Done | Phase::Abandoned => {
                Ok(Reply::Error(RequestError::InvalidRequest))
            }
        }
    }

    /// The text that the changes of an open document lead to.
    fn changed_text(
        &self,
        alloc: Global,
        uri: &str,
        message: &Value,
    ) -> Result<Option<Vec<u8>>, AllocError>
        ensures { IfOk result (λ text. option_map (λ t. t.items) text
            ≡ text_after self.now uri.now (view message.now)) }
    {
        let Some(source) = self.documents.text(uri) else {
            return Ok(None);
        };
        let changes = message
            .pointer("/params/contentChanges")
            .and_then(Value::as_array);
        match changes {
            Some(changes) => after_changes(alloc, self.encoding, source, changes.as_slice()),
            None => Ok(None),
        }
    }

    /// Keeps a text for a document, and publishes its diagnostics.
    fn keep(
        &mut self,
        alloc: Global,
        uri: &str,
        text: Option<Vec<u8>>,
    ) -> Result<Vec<Value>, AllocError>
        requires { self.old.phase ≡ Phase.Serving }
        ensures { IfOk result (λ out. Keeps self.old uri.now (option_map (λ t. t.items) text) (map view out.items)
            self.new) }
    {
        let Some(text) = text else {
            return Ok(Vec::new(alloc));
        };
        let Judged {
            diagnostics,
            compiled,
        } = judge(alloc, self.reading(), uri, text.as_slice())?;
        let message = diagnostics_message(alloc, uri, diagnostics)?;
        self.documents.open(alloc, uri, text, compiled)?;
        one(alloc, message)
    }

    /// Forgets a document, and takes its diagnostics back.
    fn forget(&mut self, alloc: Global, uri: &str) -> Result<Vec<Value>, AllocError>
        requires { self.old.phase ≡ Phase.Serving }
        ensures { IfOk result (λ out. Forgets self.old uri.now (map view out.items) self.new) }
    {
        let none = json!(in alloc; [])?;
        let message = diagnostics_message(alloc, uri, none)?;
        self.documents.close(uri);
        one(alloc, message)
    }

    /// Takes what is told of a document.
    fn note_document(
        &mut self,
        alloc: Global,
        told: Told,
        message: &Value,
    ) -> Result<Vec<Value>, AllocError>
        requires { self.old.phase ≡ Phase.Serving }
        ensures { IfOk result (λ out. NotesOf self.old told (view message.now) (uri_of (view message.now))
            (map view out.items) self.new) }
    {
        let Some(uri) = text_at(message, "/params/textDocument/uri") else {
            return Ok(Vec::new(alloc));
        };
        match told {
            Told::Opened => {
                let text = opened_text(alloc, message)?;
                self.keep(alloc, uri, text)
            }
            Told::Changed => {
                let text = self.changed_text(alloc, uri, message)?;
                self.keep(alloc, uri, text)
            }
            Told::Closed => self.forget(alloc, uri),
            Told::Exit | Told::Other => Ok(Vec::new(alloc)),
        }
    }

    /// Ends.
    fn exit(&mut self)
        ensures { self.new ≡ in_phase (phase_after_exit self.old.phase) self.old }
    {
        self.phase = match self.phase {
            Phase::ShutDown | Phase::Done => Phase::Done,
            Phase::Waiting | Phase::Serving | Phase::Abandoned => Phase::Abandoned,
        };
    }

    /// Takes what is told.
    fn note(&mut self, alloc: Global, told: Told, message: &Value) -> Result<Vec<Value>, AllocError>
        ensures { IfOk result (λ out. Notes self.old told (view message.now) (map view out.items) self.new) }
    {
        match (told, self.phase) {
            (Told::Exit, _) => {
                self.exit();
                Ok(Vec::new(alloc))
            }
            (_, Phase::Serving) => self.note_document(alloc, told, message),
            _ => Ok(Vec::new(alloc)),
        }
    }

    /// Takes a message that is JSON.
    fn receive(&mut self, alloc: Global, message: &Value) -> Result<Vec<Value>, AllocError>
        ensures { IfOk result (λ out. Receives self.old (view message.now) (kind_of (view message.now))
            (map view out.items) self.new) }
    {
        let method = message.get("method").and_then(Value::as_str);
        match (message.get("id"), method) {
            (Some(id), Some(method)) => {
                if is_id(id) {
                    let reply = self.reply(alloc, asked_of(method), message)?;
                    one(alloc, response(alloc, id, reply)?)
                } else {
                    one(alloc, refusal_message(alloc, RequestError::InvalidRequest)?)
                }
            }
            (None, Some(method)) => self.note(alloc, told_of(method), message),
            (Some(_), None) => Ok(Vec::new(alloc)),
            (None, None) => one(alloc, refusal_message(alloc, RequestError::InvalidRequest)?),
        }
    }

    /// Takes the next message, and gives the messages that go out for it.
    pub fn step(&mut self, alloc: Global, message: &[u8]) -> Result<Vec<Value>, AllocError>
        ensures { IfOk result (λ out. Step self.old message.now (map view out.items) self.new) }
    {
        match read(alloc, message)? {
            Some(value) => self.receive(alloc, &value),
            None => one(alloc, refusal_message(alloc, RequestError::ParseError)?),
        }
    }
}
