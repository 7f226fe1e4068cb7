//! The nodes of an expression, made of their parts.
#![tactic(auto, using(ck_syntax::proofs::Views::line_is))]

ghost use Rattle.std.specs.Prelude.{◌≡◌, ◌≤◌, IfOk};
ghost use Rattle.ck_base.specs.declared.limits.TheConstants.{MAX_NESTING};
ghost use Rattle.parse_exprs.specs.Nodes as nodes;
ghost use Rattle.parse_exprs.specs.Nodes.{Makes};
ghost use Rattle.parse_exprs.specs.Operands.{IsShallow, bracketed, either_way, operand_next};
ghost use Rattle.parse_exprs.specs.Operands.{tree_of};
ghost use Rattle.ck_syntax.specs.Tree as trees;
ghost use Rattle.ck_syntax.specs.Tree.{no_exprs};
ghost use Rattle.ck_syntax.specs.View.{exprs_of, view_declr, view_kind, view_option, with_bracket};

use crate::heap::boxed;
use crate::operand::Operand;
use ck_base::{List, Text};
use ck_syntax::{
    Base, BinaryOp, Bracket, ChuckOp, DeclHead, Declarator, Expr, ExprKind, PostfixOp, PrefixOp,
    TypeName,
};
use fixed_point::Memory;
use std::alloc::Global;

/// An expression of this line and kind.
pub fn node(alloc: Global, line: u32, kind: ExprKind) -> Result<Box<Expr>, Memory>
    ensures { Makes (view_kind line kind) result }
{
    boxed(alloc, Expr { line, kind })
}

/// An expression in parentheses.
pub fn paren(alloc: Global, line: u32, inner: Box<Expr>) -> Result<Box<Expr>, Memory>
    ensures { Makes (trees.paren line (tree_of inner)) result }
{
    node(alloc, line, ExprKind::Paren(inner))
}

/// A call of `callee`.
pub fn call(alloc: Global, callee: Box<Expr>, arguments: List<Expr>) -> Result<Box<Expr>, Memory>
    ensures { Makes (nodes.call (tree_of callee) (exprs_of no_exprs arguments)) result }
{
    node(alloc, callee.line, ExprKind::Call { callee, arguments })
}

/// An item of `array`.
pub fn index(alloc: Global, array: Box<Expr>, index: Box<Expr>) -> Result<Box<Expr>, Memory>
    ensures { Makes (nodes.index (tree_of array) (tree_of index)) result }
{
    node(alloc, array.line, ExprKind::Index { array, index })
}

/// A member of `object`.
pub fn member(alloc: Global, object: Box<Expr>, name: Text) -> Result<Box<Expr>, Memory>
    ensures { Makes (nodes.member (tree_of object) name) result }
{
    node(alloc, object.line, ExprKind::Member { object, name })
}

/// `++` or `--` behind its operand.
pub fn postfix(alloc: Global, operand: Box<Expr>, operator: PostfixOp) -> Result<Box<Expr>, Memory>
    ensures { Makes (nodes.postfix (tree_of operand) operator) result }
{
    node(alloc, operand.line, ExprKind::Postfix { operand, operator })
}

/// A duration: a count and its unit.
pub fn dur(alloc: Global, count: Box<Expr>, unit: Box<Expr>) -> Result<Box<Expr>, Memory>
    ensures { Makes (nodes.dur (tree_of count) (tree_of unit)) result }
{
    node(alloc, count.line, ExprKind::Dur { count, unit })
}

/// An operator before its operand.
pub fn prefix(
    alloc: Global,
    line: u32,
    operator: PrefixOp,
    operand: Box<Expr>,
) -> Result<Box<Expr>, Memory>
    ensures { Makes (trees.prefix line operator (tree_of operand)) result }
{
    node(alloc, line, ExprKind::Prefix { operator, operand })
}

/// A call in a shred of its own.
pub fn spork(alloc: Global, line: u32, call: Box<Expr>) -> Result<Box<Expr>, Memory>
    ensures { Makes (trees.spork line (tree_of call)) result }
{
    node(alloc, line, ExprKind::Spork(call))
}

/// A value as one of another type.
pub fn cast(alloc: Global, value: Box<Expr>, target: TypeName) -> Result<Box<Expr>, Memory>
    ensures { Makes (nodes.cast (tree_of value) target) result }
{
    node(alloc, value.line, ExprKind::Cast { value, target })
}

/// A binary operator between its operands.
pub fn binary(
    alloc: Global,
    left: Box<Expr>,
    operator: BinaryOp,
    right: Box<Expr>,
) -> Result<Box<Expr>, Memory>
    ensures { Makes (nodes.binary (tree_of left) operator (tree_of right)) result }
{
    let line = left.line;
    let kind = ExprKind::Binary {
        left,
        operator,
        right,
    };
    node(alloc, line, kind)
}

/// A choice between two by a test.
pub fn choice(
    alloc: Global,
    test: Box<Expr>,
    then: Box<Expr>,
    otherwise: Box<Expr>,
) -> Result<Box<Expr>, Memory>
    ensures { Makes (nodes.choice (tree_of test) (tree_of then) (tree_of otherwise)) result }
{
    let line = test.line;
    let kind = ExprKind::Cond {
        test,
        then,
        otherwise,
    };
    node(alloc, line, kind)
}

/// A chuck operator between its operands.
pub fn chuck(
    alloc: Global,
    left: Box<Expr>,
    operator: ChuckOp,
    right: Box<Expr>,
) -> Result<Box<Expr>, Memory>
    ensures { Makes (nodes.chuck (tree_of left) operator (tree_of right)) result }
{
    let line = left.line;
    let kind = ExprKind::Chuck {
        left,
        operator,
        right,
    };
    node(alloc, line, kind)
}

/// An array of these items.
pub fn array(alloc: Global, line: u32, items: List<Expr>) -> Result<Box<Expr>, Memory>
    ensures { Makes (trees.array line (exprs_of no_exprs items)) result }
{
    node(alloc, line, ExprKind::Array(items))
}

/// A new object, or a new array of these sizes.
pub fn object(alloc: Global, line: u32, base: Base, sizes: List<Expr>) -> Result<Box<Expr>, Memory>
    ensures { Makes (trees.new line base (exprs_of no_exprs sizes)) result }
{
    node(alloc, line, ExprKind::New { base, sizes })
}

/// A new object, made with these arguments.
pub fn object_with(
    alloc: Global,
    line: u32,
    base: Base,
    arguments: List<Expr>,
) -> Result<Box<Expr>, Memory>
    ensures { Makes (trees.new_with line base (exprs_of no_exprs arguments)) result }
{
    node(alloc, line, ExprKind::NewWith { base, arguments })
}

/// A declaration.
pub fn declaration(
    alloc: Global,
    line: u32,
    head: DeclHead,
    declarator: Declarator,
) -> Result<Box<Expr>, Memory>
    ensures { Makes (trees.declare line head (view_declr declarator)) result }
{
    let declarator = boxed(alloc, declarator)?;
    node(alloc, line, ExprKind::Declare { head, declarator })
}

/// A pair of brackets, with its size if there is one.
pub fn bracket(size: Option<Box<Expr>>) -> Bracket
    ensures { (before : _) → with_bracket before result ≡ bracketed before (view_option size) }
{
    match size {
        Some(size) => Bracket::Size(Box::into_inner(size)),
        None => Bracket::Empty,
    }
}

/// An operand as an expression, and the depth behind it, where a declaration stands at `depth`.
pub fn operand(alloc: Global, operand: Operand, depth: u32) -> Result<(Box<Expr>, u32), Memory>
    requires depth { depth ≤ MAX_NESTING }
    requires operand { IsShallow operand }
    ensures view { IfOk result (λ x. (f : _)
        → operand_next operand (either_way depth f) ≡ f (tree_of x.0) x.1) }
    ensures shallow { IfOk result (λ x. x.1 ≤ MAX_NESTING) }
{
    match operand {
        Operand::Declaration {
            line,
            head,
            declarator,
        } => {
            let expr = declaration(alloc, line, head, declarator)?;
            Ok((expr, depth))
        }
        Operand::Value { expr, depth } => Ok((expr, depth)),
    }
}
