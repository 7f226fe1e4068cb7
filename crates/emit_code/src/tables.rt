//! What the code of a tree asks of its program.
use ck_typed::Class;
use code_texts::Texts;

/// The classes of a program and the numbers of its strings: one thing to hand on, since trees are
/// thousands high.
#[derive(Drop)]
pub(crate) struct Tables<'a> {
    pub(crate) classes: &'a [Class],
    pub(crate) texts: &'a Texts,
}
