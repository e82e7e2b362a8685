//! Statements, by one function for each rule of the grammar.

ghost use Rattle.std.specs.Prelude.{◌≡◌, ◌∷◌, [], length, IfOk, IfErr};
ghost use Rattle.sect_front.specs.{Grammar.{operand_token}, Tokens.{test_tokens, operands_tokens, block_tokens}};
ghost use Rattle.sect_front.specs.declared.token.Token.{Token as AToken};
ghost use Rattle.sect_front.specs.steps.Places.{test_places, store_places};
ghost use Rattle.sect_front.specs.steps.Passing.{ArePassed, IsAbsent, IsAlike, StopsIn, HasAdded};
ghost use Rattle.sect_front.specs.{ItemSpans.{past, block_spans}, steps.Spanning.{with_spans, HasItems}};

use crate::cursor::{Cursor, Keyword, Spans, Stop};
use crate::expected::Expected;
use crate::items::Items;
use crate::name::Name;
use crate::token::Token;
use crate::tree::{Block, Locking, Operand, Primitive, Statement, Test};
use std::alloc::Global;

impl<'a> Cursor<'a> {
    /// test = "(" operand cmp operand ")"
    fn test(&mut self) -> Result<Test, Stop>
        ensures ok { IfOk result (λ t. ArePassed self.old (test_tokens t []) self.new) }
        ensures err { IfErr result (λ stop. StopsIn stop (test_places []) self.old self.new) }
    {
        self.sign(b'(', Expected::OpenParen)?;
        let left = self.operand()?;
        let comparison = self.comparison()?;
        let right = self.operand()?;
        self.sign(b')', Expected::CloseParen)?;
        Ok(Test {
            left,
            comparison,
            right,
        })
    }

    /// Reads the statement that has a target, `=`, a base and `.` before it.
    fn load(&mut self, x: &Name, y: &Name, block: &mut Block) -> Result<(), Stop>
        ensures ok { IfOk result (λ _. HasAdded Expected.Start
            (AToken.Name x.now ∷ AToken.Equal ∷ AToken.Name y.now ∷ AToken.Dot ∷ [])
            self.old self.new block.old block.new) }
        ensures err { IfErr result (λ stop. StopsIn stop (Expected.Name ∷ Expected.Semicolon ∷ [])
            self.old self.new) }
    {
        let f = self.name()?;
        self.sign(b';', Expected::Semicolon)?;
        block.push(Statement::Primitive(Primitive::Load(*x, *y, f)))?;
        Ok(())
    }

    /// Reads the statement that has a target, `=` and `new` before it.
    fn made(&mut self, x: &Name, block: &mut Block) -> Result<(), Stop>
        ensures ok { IfOk result (λ _. HasAdded Expected.Start
            (AToken.Name x.now ∷ AToken.Equal ∷ AToken.New ∷ []) self.old self.new block.old block.new) }
        ensures err { IfErr result (λ stop. StopsIn stop (Expected.Name ∷ Expected.Semicolon ∷ [])
            self.old self.new) }
    {
        let r = self.name()?;
        self.sign(b';', Expected::Semicolon)?;
        block.push(Statement::Primitive(Primitive::New(*x, r)))?;
        Ok(())
    }

    /// Reads the statement that has a base and `.` before it.
    pub fn store(&mut self, y: &Name, block: &mut Block) -> Result<(), Stop>
        ensures ok { IfOk result (λ _. HasAdded Expected.Start (AToken.Name y.now ∷ AToken.Dot ∷ [])
            self.old self.new block.old block.new) }
        ensures err { IfErr result (λ stop. StopsIn stop (store_places []) self.old self.new) }
    {
        let f = self.name()?;
        if !self.takes_equal() {
            return Err(Stop::At(Expected::Equal));
        }
        let v = self.operand()?;
        self.sign(b';', Expected::Semicolon)?;
        block.push(Statement::Primitive(Primitive::Store(*y, f, v)))?;
        Ok(())
    }

    /// Reads the statement that has a target, `=` and an operand before it, where this may stand.
    #[inline(always)]
    fn computed(
        &mut self,
        x: &Name,
        v: &Operand,
        expected: Expected,
        block: &mut Block,
    ) -> Result<(), Stop>
        requires alike { IsAlike expected Expected.AfterFirst self.old }
        ensures ok { IfOk result (λ _. HasAdded Expected.Start
            (AToken.Name x.now ∷ AToken.Equal ∷ operand_token v.now ∷ []) self.old self.new block.old block.new) }
        ensures err { IfErr result (λ stop. StopsIn stop (expected ∷ []) self.old self.new) }
    {
        if self.takes(b';') {
            block.push(Statement::Primitive(Primitive::Assign(*x, *v)))?;
            return Ok(());
        }
        let Some(o) = self.takes_operator() else {
            return Err(Stop::At(expected));
        };
        let w = self.operand()?;
        self.sign(b';', Expected::Semicolon)?;
        block.push(Statement::Primitive(Primitive::Compute(*x, *v, o, w)))?;
        Ok(())
    }

    /// Reads the statement that has a target, `=` and a name before it.
    #[inline(always)]
    fn first_name(&mut self, x: &Name, y: &Name, block: &mut Block) -> Result<(), Stop>
        ensures ok { IfOk result (λ _. HasAdded Expected.Start
            (AToken.Name x.now ∷ AToken.Equal ∷ AToken.Name y.now ∷ []) self.old self.new block.old block.new) }
        ensures err { IfErr result (λ stop. StopsIn stop (Expected.AfterFirstName ∷ []) self.old self.new) }
    {
        if self.takes(b'.') {
            return self.load(x, y, block);
        }
        self.computed(x, &Operand::Name(*y), Expected::AfterFirstName, block)
    }

    /// Reads the statement that has a target and `=` before it.
    pub fn value(&mut self, x: &Name, block: &mut Block) -> Result<(), Stop>
        ensures ok { IfOk result (λ _. HasAdded Expected.Start (AToken.Name x.now ∷ AToken.Equal ∷ [])
            self.old self.new block.old block.new) }
        ensures err { IfErr result (λ stop. StopsIn stop (Expected.Value ∷ []) self.old self.new) }
    {
        let mut token = Token::Class;
        let Some(rest) = self.token(&mut token) else {
            return Err(Stop::At(Expected::Value));
        };
        match &token {
            Token::Name(y) => {
                self.pass(rest);
                self.first_name(x, y, block)
            }
            Token::New => {
                self.pass(rest);
                self.made(x, block)
            }
            Token::Number(n) => {
                self.pass(rest);
                self.computed(x, &Operand::Number(*n), Expected::AfterFirst, block)
            }
            Token::Null => {
                self.pass(rest);
                self.computed(x, &Operand::Null, Expected::AfterFirst, block)
            }
            _ => Err(Stop::At(Expected::Value)),
        }
    }

    /// Reads the statement that has a name before it.
    #[inline(always)]
    fn named(&mut self, x: &Name, block: &mut Block) -> Result<(), Stop>
        ensures ok { IfOk result (λ _. HasAdded Expected.Start (AToken.Name x.now ∷ [])
            self.old self.new block.old block.new) }
        ensures err { IfErr result (λ stop. StopsIn stop (Expected.AfterName ∷ []) self.old self.new) }
    {
        if self.takes_equal() {
            return self.value(x, block);
        }
        if self.takes(b'.') {
            return self.store(x, block);
        }
        Err(Stop::At(Expected::AfterName))
    }

    /// Reads the statement that has `print` before it.
    fn printed(&mut self, block: &mut Block) -> Result<(), Stop>
        ensures ok { IfOk result (λ _. HasAdded Expected.Start (AToken.Print ∷ [])
            self.old self.new block.old block.new) }
        ensures err { IfErr result (λ stop. StopsIn stop (Expected.Operand ∷ Expected.Semicolon ∷ [])
            self.old self.new) }
    {
        let v = self.operand()?;
        self.sign(b';', Expected::Semicolon)?;
        block.push(Statement::Primitive(Primitive::Print(v)))?;
        Ok(())
    }

    /// [operand {"," operand}] ")"
    fn arguments(&mut self, alloc: Global) -> Result<Items<Operand>, Stop>
        ensures ok { IfOk result (λ vs. ArePassed self.old (operands_tokens vs (AToken.CloseParen ∷ [])) self.new) }
        ensures err { IfErr result (λ stop. StopsIn stop (Expected.Argument ∷ []) self.old self.new) }
    {
        let mut values = Items::new(alloc);
        if self.takes(b')') {
            return Ok(values);
        }
        let Some(first) = self.takes_operand() else {
            return Err(Stop::At(Expected::Argument));
        };
        values.push(first)?;
        'more: while !self.takes(b')') {
            if !self.takes(b',') {
                return Err(Stop::At(Expected::AfterArgument));
            }
            let next = self.operand()?;
            values.push(next)?;
        }
        Ok(values)
    }

    /// Reads the statement that has `call` before it.
    fn called(&mut self, alloc: Global, block: &mut Block) -> Result<(), Stop>
        ensures ok { IfOk result (λ _. HasAdded Expected.Start (AToken.Call ∷ [])
            self.old self.new block.old block.new) }
        ensures err { IfErr result (λ stop. StopsIn stop
            (Expected.Name ∷ Expected.OpenParen ∷ Expected.Argument ∷ Expected.Semicolon ∷ []) self.old self.new) }
    {
        let f = self.name()?;
        self.sign(b'(', Expected::OpenParen)?;
        let values = self.arguments(alloc)?;
        self.sign(b';', Expected::Semicolon)?;
        block.push(Statement::Call(f, values))?;
        Ok(())
    }

    /// "{" {stmt} "}", where this may stand
    #[cycle(statements)]
    fn block(&mut self, expected: Expected, spans: &mut Spans) -> Result<Block, Stop>
        requires alike { IsAlike expected Expected.OpenBrace self.old }
        ensures ok { IfOk result (λ b. ArePassed self.old
            (AToken.OpenBrace ∷ block_tokens b (AToken.CloseBrace ∷ [])) self.new) }
        ensures spans { IfOk result (λ b. spans.new ≡ with_spans spans.old
            (block_spans spans.old.total (past self.old.here (AToken.OpenBrace ∷ [])) b)) }
        ensures err { IfErr result (λ stop. StopsIn stop (expected ∷ []) self.old self.new) }
    {
        self.open_brace(expected)?;
        self.statements(spans)
    }

    /// Reads the `if` behind its word, before whose first byte so many are left. Gives the place behind it.
    #[cycle(statements)]
    fn branch(
        &mut self,
        start: usize,
        spans: &mut Spans,
        block: &mut Block,
    ) -> Result<Expected, Stop>
        ensures ok { IfOk result (λ e. HasItems e (AToken.If ∷ []) self.old self.new block.old block.new
            start spans.old spans.new) }
        ensures alike { IfOk result (λ e. IsAlike e Expected.Start self.new) }
        ensures err { IfErr result (λ stop. StopsIn stop
            (test_places (Expected.OpenBrace ∷ Expected.StartOrElse ∷ [])) self.old self.new) }
    {
        let test = self.test()?;
        spans.add(start, self.last)?;
        let then = self.block(Expected::OpenBrace, spans)?;
        if self.takes_keyword(Keyword::Else) {
            let other = self.block(Expected::OpenBrace, spans)?;
            block.push(Statement::IfElse(test, then, other))?;
            return Ok(Expected::Start);
        }
        block.push(Statement::If(test, then))?;
        Ok(Expected::StartOrElse)
    }

    /// Reads the `while` behind its word, before whose first byte so many are left.
    #[cycle(statements)]
    fn repeated(&mut self, start: usize, spans: &mut Spans, block: &mut Block) -> Result<(), Stop>
        ensures ok { IfOk result (λ _. HasItems Expected.Start (AToken.While ∷ [])
            self.old self.new block.old block.new start spans.old spans.new) }
        ensures err { IfErr result (λ stop. StopsIn stop (test_places (Expected.OpenBrace ∷ [])) self.old self.new) }
    {
        let test = self.test()?;
        spans.add(start, self.last)?;
        let body = self.block(Expected::OpenBrace, spans)?;
        block.push(Statement::While(test, body))?;
        Ok(())
    }

    /// Reads the `atomic` behind its word, before whose first byte so many are left.
    #[cycle(statements)]
    fn atomic(&mut self, start: usize, spans: &mut Spans, block: &mut Block) -> Result<(), Stop>
        ensures ok { IfOk result (λ _. HasItems Expected.Start (AToken.Atomic ∷ [])
            self.old self.new block.old block.new start spans.old spans.new) }
        ensures err { IfErr result (λ stop. StopsIn stop (Expected.AllOrBrace ∷ []) self.old self.new) }
    {
        if self.takes_keyword(Keyword::All) {
            spans.add(start, self.last)?;
            let body = self.block(Expected::OpenBrace, spans)?;
            block.push(Statement::Atomic(Locking::All, body))?;
            return Ok(());
        }
        spans.add(start, self.last)?;
        let body = self.block(Expected::AllOrBrace, spans)?;
        block.push(Statement::Atomic(Locking::Inferred, body))?;
        Ok(())
    }

    /// Reads a statement, where this may stand. Gives the place behind it.
    #[cycle(statements)]
    pub fn statement(
        &mut self,
        expected: Expected,
        spans: &mut Spans,
        block: &mut Block,
    ) -> Result<Expected, Stop>
        requires alike { IsAlike expected Expected.Start self.old }
        requires brace { IsAbsent AToken.CloseBrace self.old }
        ensures ok { IfOk result (λ e. HasItems e [] self.old self.new block.old block.new
            (length self.old.here) spans.old spans.new) }
        ensures alike { IfOk result (λ e. IsAlike e Expected.Start self.new) }
        ensures err { IfErr result (λ stop. StopsIn stop (expected ∷ []) self.old self.new) }
    {
        let mut token = Token::Class;
        let Some(rest) = self.token(&mut token) else {
            return Err(Stop::At(expected));
        };
        let start = self.here.len();
        match &token {
            Token::Name(x) => {
                self.pass(rest);
                self.named(x, block)?;
                spans.add(start, self.end)?;
            }
            Token::If => {
                self.pass(rest);
                return self.branch(start, spans, block);
            }
            Token::While => {
                self.pass(rest);
                self.repeated(start, spans, block)?;
            }
            Token::Print => {
                self.pass(rest);
                self.printed(block)?;
                spans.add(start, self.end)?;
            }
            Token::Atomic => {
                self.pass(rest);
                self.atomic(start, spans, block)?;
            }
            Token::Call => {
                self.pass(rest);
                self.called(spans.alloc(), block)?;
                spans.add(start, self.end)?;
            }
            _ => return Err(Stop::At(expected)),
        }
        Ok(Expected::Start)
    }

    /// {stmt} "}"
    #[cycle(statements)]
    fn statements(&mut self, spans: &mut Spans) -> Result<Block, Stop>
        ensures ok { IfOk result (λ b. ArePassed self.old (block_tokens b (AToken.CloseBrace ∷ [])) self.new) }
        ensures spans { IfOk result (λ b. spans.new ≡ with_spans spans.old
            (block_spans spans.old.total self.old.here b)) }
        ensures err { IfErr result (λ stop. StopsIn stop (Expected.Start ∷ []) self.old self.new) }
    {
        let mut block = Block::new(spans.alloc());
        let mut expected = Expected::Start;
        'read: while !self.takes_close() {
            expected = self.statement(expected, spans, &mut block)?;
        }
        block.fit();
        Ok(block)
    }
}
