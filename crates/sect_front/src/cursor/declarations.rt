//! Declarations, by one function for each rule of the grammar.

ghost use Rattle.std.specs.Prelude.{◌≡◌, ◌≢◌, ◌∷◌, [], List, ℕ, length, IfOk, IfErr};
ghost use Rattle.sect_front.specs.{Syntax.{End}, Tokens.{block_tokens, declarations_tokens, hints_tokens}};
ghost use Rattle.sect_front.specs.{Tokens.{parameters_tokens, source_tokens}, declared.token.Token.{Token as AToken}};
ghost use Rattle.sect_front.specs.steps.Passing.{ArePassed, IsAbsent, IsAlike, StopsIn};
ghost use Rattle.sect_front.specs.steps.Declaring.{HasDeclared, HasBegun, FitsPart, HasPart, Halts, StopsText};
ghost use Rattle.sect_front.specs.ItemSpans.{past, declarations_spans, parameters_spans, body_spans, source_spans};
ghost use Rattle.sect_front.specs.ItemSpans.{record_spans, procedure_spans, thread_spans};
ghost use Rattle.sect_front.specs.steps.Spanning.{with_spans, AddsItem, HasBegunItems, HasPartItems, HasSpansOf};

use crate::cursor::{Cursor, Keyword, Spans, Stop};
use crate::expected::Expected;
use crate::items::Items;
use crate::name::Name;
use crate::token::Token;
use crate::tree::{Block, Declarations, GlobalObject, Kind, Procedure, Record, Thread};
use std::alloc::Global;
use std::marker::Model;

/// The declarations that have been read.
#[derive(Drop)]
pub struct Source {
    pub records: Vec<Record>,
    pub globals: Vec<GlobalObject>,
    pub procedures: Vec<Procedure>,
    pub threads: Vec<Thread>,
}

impl Model for Source {
    ghost use Rattle.std.specs.Coded.{codes};
    ghost use Rattle.sect_front.specs.Coding.{block_code};
    ghost use Rattle.sect_front.specs.TreeView.{TreeView};

    ghost Value = { TreeView };

    ghost coded = { Prim.hlevel (codes, block_code) };

    ghost view = { λ s. record {
      records = s.records.items;
      globals = s.globals.items;
      procedures = s.procedures.items;
      threads = s.threads.items;
    } };
}

impl Source {
    ghost use Rattle.sect_front.specs.steps.Declaring.{with_record, with_global, with_procedure, with_thread};

    /// No declarations.
    fn new(alloc: Global) -> Source
        ensures { result ≡ record { records = []; globals = []; procedures = []; threads = [] } }
    {
        Source {
            records: Vec::new(alloc),
            globals: Vec::new(alloc),
            procedures: Vec::new(alloc),
            threads: Vec::new(alloc),
        }
    }

    /// Adds a record.
    fn add_record(&mut self, added: Record) -> Result<(), Stop>
        ensures ok { IfOk result (λ _. self.new ≡ with_record self.old added) }
        ensures err { IfErr result (λ stop. stop ≡ Stop.Memory) }
    {
        self.records.push(added)?;
        Ok(())
    }

    /// Adds a global.
    fn add_global(&mut self, added: GlobalObject) -> Result<(), Stop>
        ensures ok { IfOk result (λ _. self.new ≡ with_global self.old added) }
        ensures err { IfErr result (λ stop. stop ≡ Stop.Memory) }
    {
        self.globals.push(added)?;
        Ok(())
    }

    /// Adds a procedure.
    fn add_procedure(&mut self, added: Procedure) -> Result<(), Stop>
        ensures ok { IfOk result (λ _. self.new ≡ with_procedure self.old added) }
        ensures err { IfErr result (λ stop. stop ≡ Stop.Memory) }
    {
        self.procedures.push(added)?;
        Ok(())
    }

    /// Adds a thread.
    fn add_thread(&mut self, added: Thread) -> Result<(), Stop>
        ensures ok { IfOk result (λ _. self.new ≡ with_thread self.old added) }
        ensures err { IfErr result (λ stop. stop ≡ Stop.Memory) }
    {
        self.threads.push(added)?;
        Ok(())
    }
}

impl<'a> Cursor<'a> {
    /// Reads a field or a local behind its type: name ";"
    fn declared(&mut self, kind: Kind, list: &mut Declarations) -> Result<(), Stop>
        ensures ok { IfOk result (λ _. HasDeclared kind self.old self.new list.old list.new) }
        ensures err { IfErr result (λ stop. StopsIn stop (Expected.Name ∷ Expected.Semicolon ∷ [])
            self.old self.new) }
    {
        let name = self.name()?;
        self.sign(b';', Expected::Semicolon)?;
        list.push(kind, name)?;
        Ok(())
    }

    /// Reads what follows a name with which a local or the first statement begins. Gives the place behind it.
    fn after_word(
        &mut self,
        x: &Name,
        locals: &mut Declarations,
        block: &mut Block,
    ) -> Result<Expected, Stop>
        requires { block.old ≡ End }
        ensures ok { IfOk result (λ e. HasBegun Expected.StartOrLocal e (AToken.Name x.now ∷ []) self.old self.new
            locals.old locals.new block.old block.new) }
        ensures alike { IfOk result (λ e. e ≢ Expected.StartOrLocal → IsAlike e Expected.Start self.new) }
        ensures item { IfOk result (λ _. AddsItem (AToken.Name x.now ∷ []) self.old self.new
            locals.old locals.new block.new) }
        ensures err { IfErr result (λ stop. StopsIn stop (Expected.NameOrAfterName ∷ []) self.old self.new) }
    {
        if self.takes_equal() {
            self.value(x, block)?;
            return Ok(Expected::Start);
        }
        if self.takes(b'.') {
            self.store(x, block)?;
            return Ok(Expected::Start);
        }
        let Some(name) = self.takes_name() else {
            return Err(Stop::At(Expected::NameOrAfterName));
        };
        self.sign(b';', Expected::Semicolon)?;
        locals.push(Kind::Record(*x), name)?;
        Ok(Expected::StartOrLocal)
    }

    /// Reads a local or the first statement. Gives the place behind it.
    fn first(
        &mut self,
        spans: &mut Spans,
        locals: &mut Declarations,
        block: &mut Block,
    ) -> Result<Expected, Stop>
        requires empty { block.old ≡ End }
        requires brace { IsAbsent AToken.CloseBrace self.old }
        ensures ok { IfOk result (λ e. HasBegunItems Expected.StartOrLocal e self.old self.new
            locals.old locals.new block.old block.new spans.old spans.new) }
        ensures alike { IfOk result (λ e. e ≢ Expected.StartOrLocal → IsAlike e Expected.Start self.new) }
        ensures err { IfErr result (λ stop. StopsIn stop (Expected.StartOrLocal ∷ []) self.old self.new) }
    {
        let mut token = Token::Class;
        let Some(rest) = self.token(&mut token) else {
            return Err(Stop::At(Expected::StartOrLocal));
        };
        let start = self.here.len();
        match &token {
            Token::Int => {
                self.pass(rest);
                self.declared(Kind::Int, locals)?;
                spans.add(start, self.end)?;
                Ok(Expected::StartOrLocal)
            }
            Token::Name(x) => {
                self.pass(rest);
                let next = self.after_word(x, locals, block)?;
                spans.add(start, self.end)?;
                Ok(next)
            }
            _ => self.statement(Expected::StartOrLocal, spans, block),
        }
    }

    /// Reads a local or a statement, where this may stand. Gives the place behind it.
    fn next(
        &mut self,
        expected: Expected,
        spans: &mut Spans,
        locals: &mut Declarations,
        block: &mut Block,
    ) -> Result<Expected, Stop>
        requires empty { expected ≡ Expected.StartOrLocal → block.old ≡ End }
        requires alike { expected ≢ Expected.StartOrLocal → IsAlike expected Expected.Start self.old }
        requires brace { IsAbsent AToken.CloseBrace self.old }
        ensures ok { IfOk result (λ e. HasBegunItems expected e self.old self.new
            locals.old locals.new block.old block.new spans.old spans.new) }
        ensures alike { IfOk result (λ e. e ≢ Expected.StartOrLocal → IsAlike e Expected.Start self.new) }
        ensures err { IfErr result (λ stop. StopsIn stop (expected ∷ []) self.old self.new) }
    {
        match expected {
            Expected::StartOrLocal => self.first(spans, locals, block),
            _ => self.statement(expected, spans, block),
        }
    }

    /// {type name ";"} {stmt} "}"
    fn body(&mut self, spans: &mut Spans) -> Result<(Declarations, Block), Stop>
        ensures ok { IfOk result (λ r. ArePassed self.old
            (declarations_tokens r.0 (block_tokens r.1 (AToken.CloseBrace ∷ []))) self.new) }
        ensures spans { IfOk result (λ r. spans.new ≡ with_spans spans.old
            (body_spans spans.old.total self.old.here r.0 r.1)) }
        ensures err { IfErr result (λ stop. StopsIn stop (Expected.StartOrLocal ∷ []) self.old self.new) }
    {
        let mut locals = Declarations::new(spans.alloc());
        let mut block = Block::new(spans.alloc());
        let mut expected = Expected::StartOrLocal;
        'read: while !self.takes_close() {
            expected = self.next(expected, spans, &mut locals, &mut block)?;
        }
        block.fit();
        Ok((locals, block))
    }

    /// {"protected_by" name}
    fn hints(&mut self, alloc: Global) -> Result<Items<Name>, Stop>
        ensures ok { IfOk result (λ hs. ArePassed self.old (hints_tokens hs []) self.new) }
        ensures end { IfOk result (λ _. IsAbsent AToken.ProtectedBy self.new) }
        ensures err { IfErr result (λ stop. StopsIn stop (Expected.HintOrBrace ∷ []) self.old self.new) }
    {
        let mut hints = Items::new(alloc);
        'more: while self.takes_keyword(Keyword::ProtectedBy) {
            let hint = self.name()?;
            hints.push(hint)?;
        }
        Ok(hints)
    }

    /// {type name ";"} "}"
    fn fields(&mut self, spans: &mut Spans) -> Result<Declarations, Stop>
        ensures ok { IfOk result (λ fs. ArePassed self.old
            (declarations_tokens fs (AToken.CloseBrace ∷ [])) self.new) }
        ensures spans { IfOk result (λ fs. spans.new ≡ with_spans spans.old
            (declarations_spans spans.old.total self.old.here fs)) }
        ensures err { IfErr result (λ stop. StopsIn stop (Expected.Field ∷ []) self.old self.new) }
    {
        let mut fields = Declarations::new(spans.alloc());
        'more: while !self.takes_close() {
            let start = self.here.len();
            let Some(kind) = self.takes_kind() else {
                return Err(Stop::At(Expected::Field));
            };
            self.declared(kind, &mut fields)?;
            spans.add(start, self.end)?;
        }
        Ok(fields)
    }

    /// Reads a record behind its word, before whose first byte so many are left:
    /// name {"protected_by" name} "{" {type name ";"} "}"
    fn record(&mut self, start: usize, spans: &mut Spans) -> Result<Record, Stop>
        ensures ok { IfOk result (λ r. ArePassed self.old (AToken.Name r.name ∷ hints_tokens r.hints
            (AToken.OpenBrace ∷ declarations_tokens r.fields (AToken.CloseBrace ∷ []))) self.new) }
        ensures spans { IfOk result (λ r. HasSpansOf (λ total from. record_spans total from r)
            AToken.Record self.old start spans.old spans.new) }
        ensures err { IfErr result (λ stop. StopsIn stop (Expected.Name ∷ Expected.HintOrBrace ∷ [])
            self.old self.new) }
    {
        let name = self.name()?;
        spans.add(start, self.last)?;
        let hints = self.hints(spans.alloc())?;
        self.open_brace(Expected::HintOrBrace)?;
        let fields = self.fields(spans)?;
        Ok(Record {
            name,
            hints,
            fields,
        })
    }

    /// Reads a global behind its word: name name ";"
    fn global(&mut self) -> Result<GlobalObject, Stop>
        ensures ok { IfOk result (λ g. ArePassed self.old
            (AToken.Name g.of ∷ AToken.Name g.name ∷ AToken.Semicolon ∷ []) self.new) }
        ensures err { IfErr result (λ stop. StopsIn stop
            (Expected.Name ∷ Expected.Name ∷ Expected.Semicolon ∷ []) self.old self.new) }
    {
        let of = self.name()?;
        let name = self.name()?;
        self.sign(b';', Expected::Semicolon)?;
        Ok(GlobalObject { of, name })
    }

    /// [type name {"," type name}] ")"
    fn parameters(&mut self, spans: &mut Spans) -> Result<Declarations, Stop>
        ensures ok { IfOk result (λ ps. ArePassed self.old
            (parameters_tokens ps (AToken.CloseParen ∷ [])) self.new) }
        ensures spans { IfOk result (λ ps. spans.new ≡ with_spans spans.old
            (parameters_spans spans.old.total self.old.here ps)) }
        ensures err { IfErr result (λ stop. StopsIn stop (Expected.Parameter ∷ []) self.old self.new) }
    {
        let mut parameters = Declarations::new(spans.alloc());
        if self.takes(b')') {
            return Ok(parameters);
        }
        let first_start = self.here.len();
        let Some(first) = self.takes_kind() else {
            return Err(Stop::At(Expected::Parameter));
        };
        let first_name = self.name()?;
        parameters.push(first, first_name)?;
        spans.add(first_start, self.last)?;
        'more: while !self.takes(b')') {
            if !self.takes(b',') {
                return Err(Stop::At(Expected::AfterParameter));
            }
            let start = self.here.len();
            let Some(kind) = self.takes_kind() else {
                return Err(Stop::At(Expected::Kind));
            };
            let name = self.name()?;
            parameters.push(kind, name)?;
            spans.add(start, self.last)?;
        }
        Ok(parameters)
    }

    /// Reads a procedure behind its word, before whose first byte so many are left:
    /// name "(" [type name {"," type name}] ")" "{" {type name ";"} {stmt} "}"
    fn procedure(&mut self, start: usize, spans: &mut Spans) -> Result<Procedure, Stop>
        ensures ok { IfOk result (λ p. ArePassed self.old (AToken.Name p.name ∷ AToken.OpenParen
            ∷ parameters_tokens p.parameters (AToken.CloseParen ∷ AToken.OpenBrace
            ∷ declarations_tokens p.locals (block_tokens p.body (AToken.CloseBrace ∷ [])))) self.new) }
        ensures spans { IfOk result (λ p. HasSpansOf (λ total from. procedure_spans total from p)
            AToken.Proc self.old start spans.old spans.new) }
        ensures err { IfErr result (λ stop. StopsIn stop
            (Expected.Name ∷ Expected.OpenParen ∷ Expected.Parameter ∷ Expected.OpenBody ∷ [])
            self.old self.new) }
    {
        let name = self.name()?;
        spans.add(start, self.last)?;
        self.sign(b'(', Expected::OpenParen)?;
        let parameters = self.parameters(spans)?;
        self.open_brace(Expected::OpenBody)?;
        let body = self.body(spans)?;
        Ok(Procedure {
            name,
            parameters,
            locals: body.0,
            body: body.1,
        })
    }

    /// Reads a thread behind its word, before whose first byte so many are left: name "{" {type name ";"} {stmt} "}"
    fn thread(&mut self, start: usize, spans: &mut Spans) -> Result<Thread, Stop>
        ensures ok { IfOk result (λ t. ArePassed self.old (AToken.Name t.name ∷ AToken.OpenBrace
            ∷ declarations_tokens t.locals (block_tokens t.body (AToken.CloseBrace ∷ []))) self.new) }
        ensures spans { IfOk result (λ t. HasSpansOf (λ total from. thread_spans total from t)
            AToken.Thread self.old start spans.old spans.new) }
        ensures err { IfErr result (λ stop. StopsIn stop (Expected.Name ∷ Expected.OpenBody ∷ [])
            self.old self.new) }
    {
        let name = self.name()?;
        spans.add(start, self.last)?;
        self.open_brace(Expected::OpenBody)?;
        let body = self.body(spans)?;
        Ok(Thread {
            name,
            locals: body.0,
            body: body.1,
        })
    }

    /// Reads a declaration, where those of this part and of later ones may stand. Gives the place behind it.
    fn declaration(
        &mut self,
        part: Expected,
        spans: &mut Spans,
        source: &mut Source,
    ) -> Result<Expected, Stop>
        requires { FitsPart part source.old }
        ensures ok { IfOk result (λ e. HasPartItems part e self.old self.new source.old source.new
            spans.old spans.new) }
        ensures err { IfErr result (λ stop. Halts stop part self.old self.new) }
    {
        let mut token = Token::Class;
        let Some(rest) = self.token(&mut token) else {
            return Err(Stop::At(part));
        };
        if !part.takes(&token) {
            return Err(Stop::At(part));
        }
        let start = self.here.len();
        match &token {
            Token::Record => {
                self.pass(rest);
                let record = self.record(start, spans)?;
                source.add_record(record)?;
                Ok(Expected::Records)
            }
            Token::Global => {
                self.pass(rest);
                let global = self.global()?;
                spans.add(start, self.end)?;
                source.add_global(global)?;
                Ok(Expected::Globals)
            }
            Token::Proc => {
                self.pass(rest);
                let procedure = self.procedure(start, spans)?;
                source.add_procedure(procedure)?;
                Ok(Expected::Procedures)
            }
            Token::Thread => {
                self.pass(rest);
                let thread = self.thread(start, spans)?;
                source.add_thread(thread)?;
                Ok(Expected::Threads)
            }
            _ => Err(Stop::At(part)),
        }
    }

    /// program = {record} {global} {proc} {thread}
    pub fn program(&mut self, spans: &mut Spans) -> Result<Source, Stop>
        ensures ok { IfOk result (λ s. ArePassed self.old (source_tokens s []) self.new) }
        ensures spans { IfOk result (λ s. spans.new ≡ with_spans spans.old
            (source_spans spans.old.total self.old.here s)) }
        ensures end { IfOk result (λ _. self.new.here ≡ []) }
        ensures err { IfErr result (λ stop. StopsText stop self.old self.new) }
    {
        let mut source = Source::new(spans.alloc());
        let mut part = Expected::Records;
        'read: while !self.here.is_empty() {
            part = self.declaration(part, spans, &mut source)?;
        }
        Ok(source)
    }
}
