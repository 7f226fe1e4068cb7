use crate::declaration::{Base, DeclHead, TypeName};
use crate::operator::{BinaryOp, ChuckOp, Constant, PostfixOp, PrefixOp, TimeUnit};
use ck_base::{List, Text};
use fixed_point::Fix;

/// An expression.
#[cycle(expr)]
#[derive(Drop)]
pub struct Expr {
    /// The line of its first token, from 1.
    pub line: u32,
    pub kind: ExprKind,
}

/// What an expression is.
#[cycle(expr)]
#[derive(Drop)]
pub enum ExprKind {
    /// `Primary = Int`
    Int(i64),
    /// `Primary = Float`
    Float(Fix),
    /// `Primary = Text`
    Text(Text),
    /// `Primary = Name`
    Name(Text),
    /// `Primary = 'true' | 'false' | 'null' | 'now' | 'me' | 'dac' | 'blackhole' | 'this'`
    Constant(Constant),
    /// `Primary =` a unit word
    Unit(TimeUnit),
    /// `Primary = '(' Expr ')'`
    Paren(Box<Expr>),
    /// `Primary = '[' Expr (',' Expr)* ']'`
    Array(List<Expr>),
    /// `Postfix = Postfix '(' (Expr (',' Expr)*)? ')'`
    Call {
        callee: Box<Expr>,
        arguments: List<Expr>,
    },
    /// `Postfix = Postfix '[' Expr ']'`
    Index {
        array: Box<Expr>,
        index: Box<Expr>,
    },
    /// `Postfix = Postfix '.' Name`
    Member {
        object: Box<Expr>,
        name: Text,
    },
    /// `Postfix = Postfix ('++' | '--')`
    Postfix {
        operand: Box<Expr>,
        operator: PostfixOp,
    },
    /// `Dur = Dur '::' Postfix`
    Dur {
        count: Box<Expr>,
        unit: Box<Expr>,
    },
    /// `Unary = ('-' | '!' | '++' | '--') Unary`
    Prefix {
        operator: PrefixOp,
        operand: Box<Expr>,
    },
    /// `Unary = 'new' Base ('[' Expr ']')*`
    New {
        base: Base,
        sizes: List<Expr>,
    },
    /// `Unary = 'new' Base '(' (Expr (',' Expr)*)? ')'`
    NewWith {
        base: Base,
        arguments: List<Expr>,
    },
    /// `Unary = 'spork' '~' Postfix`
    Spork(Box<Expr>),
    /// `Cast = Cast '$' Type`
    Cast {
        value: Box<Expr>,
        target: TypeName,
    },
    /// A binary level: `left operator right`, joined to the left.
    Binary {
        left: Box<Expr>,
        operator: BinaryOp,
        right: Box<Expr>,
    },
    /// `Cond = Or '?' Expr ':' Cond`
    Cond {
        test: Box<Expr>,
        then: Box<Expr>,
        otherwise: Box<Expr>,
    },
    /// `Operand = DeclHead Declr`
    Declare {
        head: DeclHead,
        declarator: Box<Declarator>,
    },
    /// `Expr = Expr ChuckOp Operand`
    Chuck {
        left: Box<Expr>,
        operator: ChuckOp,
        right: Box<Expr>,
    },
}

/// `Declr = Name ('[' Expr? ']')* | Name '(' (Expr (',' Expr)*)? ')'`
#[cycle(expr)]
#[derive(Drop)]
pub struct Declarator {
    pub name: Text,
    pub tail: DeclaratorTail,
}

/// What stands behind the name of a declarator.
#[cycle(expr)]
#[derive(Drop)]
pub enum DeclaratorTail {
    /// `('[' Expr? ']')*`: none too.
    Brackets(List<Bracket>),
    /// `'(' (Expr (',' Expr)*)? ')'`
    Arguments(List<Expr>),
}

/// `'[' Expr? ']'` of a declarator.
#[cycle(expr)]
#[derive(Drop)]
pub enum Bracket {
    /// `'[' ']'`
    Empty,
    /// `'[' Expr ']'`
    Size(Expr),
}
