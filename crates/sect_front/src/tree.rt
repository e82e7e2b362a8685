//! The tree of a source text: what it declares and what its procedures and threads do.

ghost use Rattle.std.specs.Prelude.{◌≡◌, OnOk, OnErr};
ghost use Rattle.sect_front.specs.{Syntax.{End}, Limits.{most_depth}};

use crate::items::Items;
use crate::literal::Literal;
use crate::name::Name;
use crate::room::{LONG_LIST, make_room};
use std::alloc::{AllocError, Global};
use std::marker::Model;

/// A value that a statement or a test uses.
#[derive(Clone, Copy, PartialEq, Eq)]
pub enum Operand {
    Number(Literal),
    Null,
    Name(Name),
}

/// How a test compares its two operands.
#[derive(Clone, Copy)]
pub enum Comparison {
    Equal,
    NotEqual,
    Less,
    LessOrEqual,
}

impl Comparison {
    ghost use Rattle.sect_front.specs.Spelling.{comparison_spelling};

    /// How it is written.
    pub fn spelling(self) -> &'static str
        ensures { result.now ≡ comparison_spelling self }
    {
        match self {
            Comparison::Equal => "==",
            Comparison::NotEqual => "!=",
            Comparison::Less => "<",
            Comparison::LessOrEqual => "<=",
        }
    }
}

/// How a statement joins two integers.
#[derive(Clone, Copy)]
pub enum Operator {
    Add,
    Subtract,
    Multiply,
}

/// The test of an `if` or a `while`.
#[derive(Clone, Copy)]
pub struct Test {
    pub left: Operand,
    pub comparison: Comparison,
    pub right: Operand,
}

/// Which locks a section takes.
#[derive(Clone, Copy)]
pub enum Locking {
    /// Those that its statements need, as they are inferred: `atomic { .. }`.
    Inferred,
    /// The one lock that covers every lock: `atomic all { .. }`.
    All,
}

/// A statement without a block.
#[derive(Clone, Copy)]
pub enum Primitive {
    /// `x = v`
    Assign(Name, Operand),
    /// `x = v op w`
    Compute(Name, Operand, Operator, Operand),
    /// `x = new R`
    New(Name, Name),
    /// `x = y.f`
    Load(Name, Name, Name),
    /// `y.f = v`
    Store(Name, Name, Operand),
    /// `print v`
    Print(Operand),
}

/// Statements, one after another.
#[cycle(tree)]
#[derive(Drop)]
pub struct Block {
    statements: Vec<Statement>,
}

/// A statement.
#[cycle(tree)]
#[derive(Drop)]
pub enum Statement {
    Primitive(Primitive),
    /// `if` without `else`, which is not the same tree as one with an empty `else`.
    If(Test, Block),
    IfElse(Test, Block, Block),
    While(Test, Block),
    Atomic(Locking, Block),
    /// `call f(v, ..)`, with the arguments in text order
    Call(Name, Items<Operand>),
}

impl Model for Block {
    ghost use Rattle.sect_front.specs.Syntax.{BlockView};
    ghost use Rattle.sect_front.specs.Coding.{block_code};

    ghost Value = { BlockView };

    ghost coded = { block_code };

    ghost use Rattle.sect_front.specs.Trees.{block_of, block_size};

    ghost view = { λ b. block_of b.statements.items };

    ghost size = { block_size };

    ghost use Rattle.std.proofs.Common.{arith};
    ghost use Rattle.sect_front.specs.Falls.{falls};

    ghost size_decreases = { λ a h. Prim.omega (arith, falls a.statements.items) };
}

impl Block {
    ghost use Rattle.sect_front.specs.Trees.{append, statement_of, block_of};

    /// No statements.
    pub fn new(alloc: Global) -> Block
        ensures { result ≡ End }
    {
        Block {
            statements: Vec::new(alloc),
        }
    }

    /// The statements, in text order.
    pub fn as_slice(&self) -> &[Statement]
        ensures { block_of result.now ≡ self.now }
    {
        self.statements.as_slice()
    }

    /// Adds a statement at the end.
    // what is added is put where it stands
    #[inline(always)]
    #[tactic(auto, using(crate::proofs::Bodies::body_of_push))]
    pub fn push(&mut self, statement: Statement) -> Result<(), AllocError>
        ensures ok { OnOk result (self.new ≡ append self.old (statement_of statement)) }
        ensures err { OnErr result (self.new ≡ self.old) }
    {
        if self.statements.len() == self.statements.capacity() {
            make_room(&mut self.statements)?;
        }
        self.statements.push(statement)?;
        Ok(())
    }

    /// Gives back the room that no statement needs. A long block would take longer to move than that is worth.
    pub(crate) fn fit(&mut self)
        ensures { self.new ≡ self.old }
    {
        if self.statements.len() < LONG_LIST {
            self.statements.shrink_to_fit();
        }
    }
}

/// The type of a field or a local, as it is written.
#[derive(Clone, Copy, PartialEq, Eq)]
pub enum Kind {
    Int,
    /// A reference to a record of this name.
    Record(Name),
}

/// A field, a parameter or a local.
#[derive(Clone, Copy, PartialEq, Eq)]
pub struct Declaration {
    pub kind: Kind,
    pub name: Name,
}

/// The fields of a record, the parameters of a procedure, or the locals of a procedure or a thread, in text order.
#[derive(Drop)]
pub struct Declarations {
    list: Vec<Declaration>,
}

impl Model for Declarations {
    ghost use Rattle.std.specs.Prelude.{List};
    ghost use Rattle.sect_front.specs.declared.tree.Declaration.{Declaration};

    ghost Value = { List Declaration };

    ghost view = { λ d. d.list.items };
}

impl Declarations {
    ghost use Rattle.std.specs.Prelude.{◌++◌, ◌∷◌, []};

    /// No declarations.
    pub fn new(alloc: Global) -> Declarations
        ensures { result ≡ [] }
    {
        Declarations {
            list: Vec::new(alloc),
        }
    }

    /// Adds a declaration at the end.
    pub fn push(&mut self, kind: Kind, name: Name) -> Result<(), AllocError>
        ensures ok { OnOk result (self.new ≡ self.old ++ record { kind = kind; name = name } ∷ []) }
        ensures err { OnErr result (self.new ≡ self.old) }
    {
        self.list.push(Declaration { kind, name })?;
        Ok(())
    }

    /// The declarations.
    pub fn as_slice(&self) -> &[Declaration]
        ensures { result.now ≡ self.now }
    {
        self.list.as_slice()
    }
}

/// A record: its name, its hints and its fields.
#[derive(Drop)]
pub struct Record {
    pub name: Name,
    /// The globals that the record names in `protected_by`, in text order.
    pub hints: Items<Name>,
    pub fields: Declarations,
}

/// A global: one fixed object of a record.
#[derive(Clone, Copy, PartialEq, Eq)]
pub struct GlobalObject {
    pub of: Name,
    pub name: Name,
}

/// A procedure: its name, its parameters, its locals and its statements.
#[derive(Drop)]
pub struct Procedure {
    pub name: Name,
    pub parameters: Declarations,
    pub locals: Declarations,
    pub body: Block,
}

/// A thread: its name, its locals and its statements.
#[derive(Drop)]
pub struct Thread {
    pub name: Name,
    pub locals: Declarations,
    pub body: Block,
}

/// A source text: its records, globals, procedures and threads, each in text order.
pub struct Tree {
    records: Vec<Record>,
    globals: Vec<GlobalObject>,
    procedures: Vec<Procedure>,
    threads: Vec<Thread>,
}

impl Drop for Tree {
    fn drop(self) {
        let Tree {
            records: _,
            globals: _,
            procedures: _,
            threads: _,
        } = self;
    }
}

impl Model for Tree {
    ghost use Rattle.sect_front.specs.TreeView.{TreeView};
    ghost use Rattle.std.specs.Coded.{codes};
    ghost use Rattle.sect_front.specs.Coding.{block_code};

    ghost Value = { TreeView };

    ghost coded = { Prim.hlevel (codes, block_code) };

    ghost view = { λ t. record {
      records = t.records.items;
      globals = t.globals.items;
      procedures = t.procedures.items;
      threads = t.threads.items;
    } };

    ghost use Rattle.std.specs.Prelude.{◌≤◌};
    ghost use Rattle.sect_front.specs.Depth.{depth};
    ghost use Rattle.sect_front.specs.Limits.{most_depth};

    ghost invariant = { λ t. depth (record {
      records = t.records.items;
      globals = t.globals.items;
      procedures = t.procedures.items;
      threads = t.threads.items;
    }) ≤ most_depth };
}

impl Tree {
    ghost use Rattle.std.specs.Prelude.{◌≤◌, ◌↔◌, IsTrue, []};
    ghost use Rattle.sect_front.specs.Depth.{depth};

    /// The tree of these declarations, of which no block is deeper than `MOST_DEPTH`, the braces of a procedure or a
    /// thread being depth 1.
    pub fn new(
        records: Vec<Record>,
        globals: Vec<GlobalObject>,
        procedures: Vec<Procedure>,
        threads: Vec<Thread>,
    ) -> Tree
        requires { depth (record {
          records = records.items;
          globals = globals.items;
          procedures = procedures.items;
          threads = threads.items;
        }) ≤ most_depth }
        ensures { result ≡ record {
          records = records.items;
          globals = globals.items;
          procedures = procedures.items;
          threads = threads.items;
        } }
    {
        Tree {
            records,
            globals,
            procedures,
            threads,
        }
    }

    /// The records, in text order.
    pub fn records(&self) -> &[Record]
        ensures { result.now ≡ self.now.records }
    {
        self.records.as_slice()
    }

    /// The globals, in text order.
    pub fn globals(&self) -> &[GlobalObject]
        ensures { result.now ≡ self.now.globals }
    {
        self.globals.as_slice()
    }

    /// The procedures, in text order.
    pub fn procedures(&self) -> &[Procedure]
        ensures { result.now ≡ self.now.procedures }
    {
        self.procedures.as_slice()
    }

    /// The threads, in text order.
    pub fn threads(&self) -> &[Thread]
        ensures { result.now ≡ self.now.threads }
    {
        self.threads.as_slice()
    }

    /// Whether it declares nothing.
    pub fn is_empty(&self) -> bool
        ensures empty { IsTrue result ↔ ((self.now.records ≡ []) × (self.now.globals ≡ []) × (self.now.procedures ≡ [])
            × (self.now.threads ≡ [])) }
        // No tree has a deeper block.
        ensures shallow { depth self.now ≤ most_depth }
    {
        self.records.is_empty()
            && self.globals.is_empty()
            && self.procedures.is_empty()
            && self.threads.is_empty()
    }
}
