//! Marks that tell at once, for most classes without a member of a name, that they have none.
ghost use Rattle.std.specs.Prelude.{◌≡◌, length, IfOk};
ghost use Rattle.type_table.specs.NameMarks.{mixed, hash_of, place, is_marked, with_mark};

use fixed_point::Memory;
use std::alloc::Global;
use std::marker::Model;

/// How many places for marks there are.
const PLACES: usize = 16_384;

/// The hash of a name with one byte more.
#[tactic(auto, unfolding(crate::specs::NameMarks::mixed))]
fn mixed(hash: usize, byte: u8) -> usize
    ensures { result ≡ mixed hash byte }
{
    (hash % PLACES + byte as usize) * 40_503 % PLACES
}

/// The hash of a name.
pub(crate) fn hash_of(name: &[u8]) -> usize
    ensures { result ≡ hash_of name.now }
{
    let mut hash = 0;
    for byte in name {
        hash = mixed(hash, *byte);
    }
    hash
}

/// The place of a class's mark under a name of this hash.
#[tactic(auto, unfolding(crate::specs::NameMarks::place))]
fn place(hash: usize, class: u32) -> usize
    ensures { result ≡ place hash class }
{
    (hash % PLACES + class as usize) % PLACES
}

/// Marks of classes under the hashes of names. Some share a place, so a class may seem marked that
/// isn't.
#[derive(Drop)]
pub(crate) struct NameMarks {
    all: Vec<bool>,
}

impl Model for NameMarks {
    ghost use Rattle.std.specs.Prelude.{List, Bool};

    ghost Value = { List Bool };

    ghost view = { λ it. it.all.items };
}

impl NameMarks {
    /// No mark.
    pub(crate) fn new(alloc: Global) -> Result<NameMarks, Memory>
        ensures { IfOk result (λ marks. length marks ≡ 16_384) }
    {
        let mut all = Vec::new(alloc);
        all.resize(PLACES, false)?;
        Ok(NameMarks { all })
    }

    /// Whether a class is marked under a name of this hash.
    pub(crate) fn has(&self, hash: usize, class: u32) -> bool
        ensures { result ≡ is_marked self.now hash class }
    {
        match self.all.get(place(hash, class)) {
            Some(is_marked) => *is_marked,
            None => true,
        }
    }

    /// Marks a class under a name of this hash, where it is to be marked.
    #[tactic(auto, using(crate::proofs::Changes::set_past))]
    pub(crate) fn mark(&mut self, hash: usize, class: u32, is_such: bool)
        ensures { self.new ≡ with_mark is_such self.old hash class }
    {
        let at = place(hash, class);
        if is_such && at < self.all.len() {
            self.all[at] = true;
        }
    }
}
