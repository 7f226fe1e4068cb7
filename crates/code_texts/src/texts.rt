//! The strings of a code, which its instructions name by numbers.
ghost use Rattle.std.specs.Prelude.{◌≡◌, ◌≤◌, [], ◌∷◌, length, IfOk, OnOk, map, All};
ghost use Rattle.ck_base.specs.declared.limits.TheConstants.{MAX_TEXT_BYTES};
ghost use Rattle.ck_scheme.specs.Texts.{once_each, number_of};

use ck_base::{List, Text};
use fixed_point::Memory;
use indexmap::IndexSet;
use std::alloc::Global;
use std::marker::Model;

/// Strings in the order of their entry. None is entered twice.
#[derive(Drop)]
pub struct Texts {
    all: IndexSet<Vec<u8>>,
}

impl Model for Texts {
    ghost use Rattle.std.specs.Prelude.{List, ℕ, ◌≤◌, length, map, All};
    ghost use Rattle.ck_base.specs.declared.limits.TheConstants.{MAX_TEXT_BYTES};

    ghost Value = { List (List ℕ) };

    ghost view = { λ it. map (λ text. text.items) it.all.keys };

    ghost invariant = { λ it. All (λ text. length text.items ≤ MAX_TEXT_BYTES) it.all.keys };
}

impl Texts {
    /// No strings.
    pub fn new(alloc: Global) -> Texts
        ensures { result ≡ [] }
    {
        Texts {
            all: IndexSet::new(alloc),
        }
    }

    /// Enters a string where it isn't entered yet.
    pub fn add(&mut self, alloc: Global, bytes: &[u8]) -> Result<(), Memory>
        requires { length bytes.now ≤ MAX_TEXT_BYTES }
        ensures { OnOk result (self.new ≡ once_each self.old (bytes.now ∷ [])) }
    {
        let bytes = bytes.to_vec(alloc)?;
        self.all.insert(bytes)?;
        Ok(())
    }

    /// The number of a string: its index, or how many strings there are where it isn't entered.
    pub fn number(&self, bytes: &[u8]) -> usize
        ensures { result ≡ number_of self.now bytes.now }
    {
        match self.all.get_index_of(bytes) {
            Some(number) => number,
            None => self.all.len(),
        }
    }

    /// The strings in order.
    pub fn to_list(&self, alloc: Global) -> Result<List<Text>, Memory>
        ensures { IfOk result (λ list. list ≡ self.now) }
    {
        let texts = copy_texts(alloc, self.all.as_slice())?;
        Ok(List::from_vec(texts))
    }
}

// Texts of these bytes.
fn copy_texts(alloc: Global, all: &[Vec<u8>]) -> Result<Vec<Text>, Memory>
    requires { All (λ text. length text.items ≤ MAX_TEXT_BYTES) all.now }
    ensures { IfOk result (λ copies. copies.items ≡ map (λ text. text.items) all.now) }
{
    let mut copies = Vec::new(alloc);
    for text in all {
        copies.push(Text::from_bytes(alloc, text)?)?;
    }
    Ok(copies)
}
