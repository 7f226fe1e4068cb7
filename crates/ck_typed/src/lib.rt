//! Typed trees: programs in which each name is a number, each operator says the types of its
//! operands, and each widening is written.
//!
//! Its one contract: a [`Program`] is plain data, and its definitions say which programs are well
//! formed: those whose numbers are all in range and whose parts fit together. The type checker
//! gives only such programs, the source meaning runs them, and the compiler compiles them.
#![tactic(auto)]

mod class;
mod expr;
mod native;
mod operation;
mod program;
mod stmt;

pub use class::Class;
pub use expr::{Direction, Spot, TypedExpr};
pub use native::Native;
pub use operation::{Binary, Leaf, Unary, Variadic};
pub use program::{Program, ProgramParts, TypedFun};
pub use stmt::TypedStmt;
