//! The tokens of a tree.

ghost use Rattle.std.specs.Prelude.{◌≡◌, ◌∷◌, ◌++◌, OnOk, IfOk};
ghost use Rattle.sect_front.specs.Grammar.{tokens_of as grammar_tokens, operand_token, operator_token, kind_token};
ghost use Rattle.sect_front.specs.Tokens.{primitive_tokens, test_tokens, locking_tokens, statement_tokens};
ghost use Rattle.sect_front.specs.Tokens.{block_tokens, declarations_tokens, hints_tokens, record_tokens};
ghost use Rattle.sect_front.specs.Tokens.{global_tokens, thread_tokens, records_tokens, globals_tokens, threads_tokens};
ghost use Rattle.sect_front.specs.Tokens.{operands_tokens, more_operands, call_tokens, parameters_tokens};
ghost use Rattle.sect_front.specs.{Tokens.{more_parameters, procedure_tokens, procedures_tokens}, Trees.{statement_of}};
ghost use Rattle.sect_front.specs.steps.Writes.{Writes};

use crate::items::Items;
use crate::name::Name;
use crate::token::Token;
use crate::tree::{
    Block, Declaration, Declarations, GlobalObject, Kind, Locking, Operand, Operator, Primitive,
    Procedure, Record, Statement, Test, Thread, Tree,
};
use std::alloc::{AllocError, Global};

fn put(out: &mut Vec<Token>, token: Token) -> Result<(), AllocError>
    ensures { OnOk result (Writes out.old.items out.new.items (λ w. token ∷ w)) }
{
    out.push(token)?;
    Ok(())
}

fn operand(v: Operand) -> Token
    ensures { result ≡ operand_token v }
{
    match v {
        Operand::Number(n) => Token::Number(n),
        Operand::Null => Token::Null,
        Operand::Name(n) => Token::Name(n),
    }
}

fn operator(o: Operator) -> Token
    ensures { result ≡ operator_token o }
{
    match o {
        Operator::Add => Token::Plus,
        Operator::Subtract => Token::Minus,
        Operator::Multiply => Token::Star,
    }
}

fn kind(k: Kind) -> Token
    ensures { result ≡ kind_token k }
{
    match k {
        Kind::Int => Token::Int,
        Kind::Record(name) => Token::Name(name),
    }
}

/// Tokens one after another.
fn put_all(out: &mut Vec<Token>, tokens: &[Token]) -> Result<(), AllocError>
    ensures { OnOk result (Writes out.old.items out.new.items (λ w. tokens.now ++ w)) }
{
    out.extend_from_slice(tokens)?;
    Ok(())
}

fn put_primitive(out: &mut Vec<Token>, p: Primitive) -> Result<(), AllocError>
    ensures { OnOk result (Writes out.old.items out.new.items (primitive_tokens p)) }
{
    use Token::{Dot, Equal, New, Print, Semicolon};
    match p {
        Primitive::Assign(x, v) => put_all(out, &[Token::Name(x), Equal, operand(v), Semicolon]),
        Primitive::Compute(x, v, o, w) => put_all(
            out,
            &[
                Token::Name(x),
                Equal,
                operand(v),
                operator(o),
                operand(w),
                Semicolon,
            ],
        ),
        Primitive::New(x, r) => put_all(
            out,
            &[Token::Name(x), Equal, New, Token::Name(r), Semicolon],
        ),
        Primitive::Load(x, y, f) => put_all(
            out,
            &[
                Token::Name(x),
                Equal,
                Token::Name(y),
                Dot,
                Token::Name(f),
                Semicolon,
            ],
        ),
        Primitive::Store(y, f, v) => put_all(
            out,
            &[
                Token::Name(y),
                Dot,
                Token::Name(f),
                Equal,
                operand(v),
                Semicolon,
            ],
        ),
        Primitive::Print(v) => put_all(out, &[Print, operand(v), Semicolon]),
    }
}

/// A word and the test behind it.
fn put_test(out: &mut Vec<Token>, word: Token, t: Test) -> Result<(), AllocError>
    ensures { OnOk result (Writes out.old.items out.new.items (λ w. word ∷ test_tokens t w)) }
{
    put_all(
        out,
        &[
            word,
            Token::OpenParen,
            operand(t.left),
            Token::Comparison(t.comparison),
            operand(t.right),
            Token::CloseParen,
        ],
    )
}

fn put_atomic(out: &mut Vec<Token>, locking: Locking) -> Result<(), AllocError>
    ensures { OnOk result (Writes out.old.items out.new.items (λ w. Token.Atomic ∷ locking_tokens locking w)) }
{
    put(out, Token::Atomic)?;
    match locking {
        Locking::Inferred => Ok(()),
        Locking::All => put(out, Token::All),
    }
}

/// Further arguments, each behind a comma.
fn put_more_operands(out: &mut Vec<Token>, values: &[Operand]) -> Result<(), AllocError>
    ensures { OnOk result (Writes out.old.items out.new.items (more_operands values.now)) }
{
    for value in values {
        put_all(out, &[Token::Comma, operand(*value)])?;
    }
    Ok(())
}

/// The arguments of a call, with commas between them.
fn put_operands(out: &mut Vec<Token>, values: &Items<Operand>) -> Result<(), AllocError>
    ensures { OnOk result (Writes out.old.items out.new.items (operands_tokens values.now)) }
{
    let Some((first, others)) = values.as_slice().split_first() else {
        return Ok(());
    };
    put(out, operand(*first))?;
    put_more_operands(out, others)
}

fn put_call(out: &mut Vec<Token>, callee: Name, values: &Items<Operand>) -> Result<(), AllocError>
    ensures { OnOk result (Writes out.old.items out.new.items (call_tokens callee values.now)) }
{
    put_all(out, &[Token::Call, Token::Name(callee), Token::OpenParen])?;
    put_operands(out, values)?;
    put_all(out, &[Token::CloseParen, Token::Semicolon])
}

#[cycle(put)]
fn put_statement(out: &mut Vec<Token>, s: &Statement) -> Result<(), AllocError>
    ensures { OnOk result (Writes out.old.items out.new.items (statement_tokens (statement_of s.now))) }
{
    match s {
        Statement::Primitive(p) => put_primitive(out, *p),
        Statement::If(t, a) => {
            put_test(out, Token::If, *t)?;
            put_braced(out, a)
        }
        Statement::IfElse(t, a, b) => {
            put_test(out, Token::If, *t)?;
            put_braced(out, a)?;
            put(out, Token::Else)?;
            put_braced(out, b)
        }
        Statement::While(t, a) => {
            put_test(out, Token::While, *t)?;
            put_braced(out, a)
        }
        Statement::Atomic(locking, a) => {
            put_atomic(out, *locking)?;
            put_braced(out, a)
        }
        Statement::Call(callee, values) => put_call(out, *callee, values),
    }
}

#[cycle(put)]
fn put_braced(out: &mut Vec<Token>, b: &Block) -> Result<(), AllocError>
    ensures { OnOk result (Writes out.old.items out.new.items
        (λ w. Token.OpenBrace ∷ block_tokens b.now (Token.CloseBrace ∷ w))) }
{
    put(out, Token::OpenBrace)?;
    put_block(out, b)?;
    put(out, Token::CloseBrace)
}

#[cycle(put)]
fn put_block(out: &mut Vec<Token>, b: &Block) -> Result<(), AllocError>
    ensures { OnOk result (Writes out.old.items out.new.items (block_tokens b.now)) }
{
    for s in b.as_slice() {
        put_statement(out, s)?;
    }
    Ok(())
}

fn put_declarations(out: &mut Vec<Token>, list: &Declarations) -> Result<(), AllocError>
    ensures { OnOk result (Writes out.old.items out.new.items (declarations_tokens list.now)) }
{
    for declaration in list.as_slice() {
        put_all(
            out,
            &[
                kind(declaration.kind),
                Token::Name(declaration.name),
                Token::Semicolon,
            ],
        )?;
    }
    Ok(())
}

fn put_hints(out: &mut Vec<Token>, hints: &Items<Name>) -> Result<(), AllocError>
    ensures { OnOk result (Writes out.old.items out.new.items (hints_tokens hints.now)) }
{
    for hint in hints.as_slice() {
        put_all(out, &[Token::ProtectedBy, Token::Name(*hint)])?;
    }
    Ok(())
}

fn put_record(out: &mut Vec<Token>, declared: &Record) -> Result<(), AllocError>
    ensures { OnOk result (Writes out.old.items out.new.items (record_tokens declared.now)) }
{
    put_all(out, &[Token::Record, Token::Name(declared.name)])?;
    put_hints(out, &declared.hints)?;
    put(out, Token::OpenBrace)?;
    put_declarations(out, &declared.fields)?;
    put(out, Token::CloseBrace)
}

fn put_global(out: &mut Vec<Token>, global: GlobalObject) -> Result<(), AllocError>
    ensures { OnOk result (Writes out.old.items out.new.items (global_tokens global)) }
{
    put_all(
        out,
        &[
            Token::Global,
            Token::Name(global.of),
            Token::Name(global.name),
            Token::Semicolon,
        ],
    )
}

/// Further parameters, each behind a comma.
fn put_more_parameters(out: &mut Vec<Token>, list: &[Declaration]) -> Result<(), AllocError>
    ensures { OnOk result (Writes out.old.items out.new.items (more_parameters list.now)) }
{
    for parameter in list {
        put_all(
            out,
            &[
                Token::Comma,
                kind(parameter.kind),
                Token::Name(parameter.name),
            ],
        )?;
    }
    Ok(())
}

/// The parameters of a procedure, with commas between them.
fn put_parameters(out: &mut Vec<Token>, list: &Declarations) -> Result<(), AllocError>
    ensures { OnOk result (Writes out.old.items out.new.items (parameters_tokens list.now)) }
{
    let Some((first, others)) = list.as_slice().split_first() else {
        return Ok(());
    };
    put_all(out, &[kind(first.kind), Token::Name(first.name)])?;
    put_more_parameters(out, others)
}

fn put_procedure(out: &mut Vec<Token>, procedure: &Procedure) -> Result<(), AllocError>
    ensures { OnOk result (Writes out.old.items out.new.items (procedure_tokens procedure.now)) }
{
    put_all(
        out,
        &[Token::Proc, Token::Name(procedure.name), Token::OpenParen],
    )?;
    put_parameters(out, &procedure.parameters)?;
    put_all(out, &[Token::CloseParen, Token::OpenBrace])?;
    put_declarations(out, &procedure.locals)?;
    put_block(out, &procedure.body)?;
    put(out, Token::CloseBrace)
}

fn put_thread(out: &mut Vec<Token>, thread: &Thread) -> Result<(), AllocError>
    ensures { OnOk result (Writes out.old.items out.new.items (thread_tokens thread.now)) }
{
    put_all(
        out,
        &[Token::Thread, Token::Name(thread.name), Token::OpenBrace],
    )?;
    put_declarations(out, &thread.locals)?;
    put_block(out, &thread.body)?;
    put(out, Token::CloseBrace)
}

fn put_records(out: &mut Vec<Token>, records: &[Record]) -> Result<(), AllocError>
    ensures { OnOk result (Writes out.old.items out.new.items (records_tokens records.now)) }
{
    for record in records {
        put_record(out, record)?;
    }
    Ok(())
}

fn put_globals(out: &mut Vec<Token>, globals: &[GlobalObject]) -> Result<(), AllocError>
    ensures { OnOk result (Writes out.old.items out.new.items (globals_tokens globals.now)) }
{
    for global in globals {
        put_global(out, *global)?;
    }
    Ok(())
}

fn put_procedures(out: &mut Vec<Token>, procedures: &[Procedure]) -> Result<(), AllocError>
    ensures { OnOk result (Writes out.old.items out.new.items (procedures_tokens procedures.now)) }
{
    for procedure in procedures {
        put_procedure(out, procedure)?;
    }
    Ok(())
}

fn put_threads(out: &mut Vec<Token>, threads: &[Thread]) -> Result<(), AllocError>
    ensures { OnOk result (Writes out.old.items out.new.items (threads_tokens threads.now)) }
{
    for thread in threads {
        put_thread(out, thread)?;
    }
    Ok(())
}

/// The tokens of a tree, in the order in which a text has them.
pub fn tokens_of(alloc: Global, tree: &Tree) -> Result<Vec<Token>, AllocError>
    ensures { IfOk result (λ tokens. tokens.items ≡ grammar_tokens tree.now) }
{
    let mut out = Vec::new(alloc);
    put_records(&mut out, tree.records())?;
    put_globals(&mut out, tree.globals())?;
    put_procedures(&mut out, tree.procedures())?;
    put_threads(&mut out, tree.threads())?;
    Ok(out)
}
