ghost use Rattle.std.specs.Prelude.{◌≡◌};

use crate::class::Class;
use crate::stmt::TypedStmt;
use ck_base::List;
use ck_values::{Kind, Place};
use std::marker::Model;

/// A function: the main of a file, the body of a class, or a function that the text declares.
#[derive(Drop)]
pub struct TypedFun {
    /// How many of its locals are parameters, `this` among them.
    pub params: u32,
    /// The kinds of its locals, parameters first.
    pub locals: List<Kind>,
    /// The kind of its result; `int` for a function without one.
    pub result: Kind,
    pub body: TypedStmt,
    pub place: Place,
}

/// All files of a command.
#[derive(Drop)]
pub struct ProgramParts {
    /// How many files there are.
    pub files: u32,
    pub classes: List<Class>,
    pub funs: List<TypedFun>,
    /// The kinds of the file variables and static members, in text order.
    pub statics: List<Kind>,
    /// The function that each file's code is.
    pub mains: List<u32>,
}

/// A program that is well formed.
///
/// Contracts see its parts.
#[derive(Drop)]
pub struct Program {
    parts: ProgramParts,
}

impl Model for Program {
    ghost use Rattle.ck_typed.specs.declared.program.ProgramParts.{ProgramParts as Parts};
    ghost use Rattle.ck_typed.specs.View.{view_program};
    ghost use Rattle.ck_typed.specs.WellFormed.{IsWellFormed};
    ghost use Rattle.ck_typed.specs.contracts.stmt.TypedStmt as statement;
    ghost use Rattle.std.specs.Coded.{codes};

    ghost Value = { Parts };

    ghost coded = { Prim.hlevel (codes, statement.the_row.coded) };

    ghost view = { λ p. p.parts };

    ghost invariant = { λ p. IsWellFormed (view_program p.parts) };
}

impl Program {
    ghost use Rattle.ck_typed.specs.View.{view_program};
    ghost use Rattle.ck_typed.specs.WellFormed.{IsWellFormed};

    /// The program of these parts.
    pub fn new(parts: ProgramParts) -> Program
        requires well_formed { IsWellFormed (view_program parts) }
        ensures { result ≡ parts }
    {
        Program { parts }
    }

    /// Its parts, which are well formed.
    pub fn parts(&self) -> &ProgramParts
        ensures parts { result.now ≡ self.now }
        ensures well_formed { IsWellFormed (view_program self.now) }
    {
        &self.parts
    }

    /// Its parts, which are well formed. It takes no memory.
    pub fn into_parts(self) -> ProgramParts
        ensures parts { result ≡ self }
        ensures well_formed { IsWellFormed (view_program self) }
    {
        let Program { parts } = self;
        parts
    }
}
