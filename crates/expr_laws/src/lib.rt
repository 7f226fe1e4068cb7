//! Laws of the typing of expressions: what the definition gives is well formed in the program, the
//! scope only grows, each place lies in one of the program's files, and a fault stands in the file
//! of its scope.
//!
//! It has no function: its proofs are about the definition alone, and carry the part of
//! [`program_laws`](../program_laws) that is about expressions.
#![tactic(auto)]
