//! The types of file variables that are declared with `auto`.
ghost use Rattle.std.specs.Prelude.{◌≡◌, [], ◌∷◌, ◌++◌, OnOk, OnErr, IfErr};
ghost use Rattle.check_scope.specs.Scope.{settled_or, settled_at};
ghost use Rattle.fixed_point.specs.Wanting.{out_of_memory};
ghost use Rattle.type_table.specs.declared.fault.TypeFault.TheVariants.{Memory as memory};

use ck_values::Kind;
use std::alloc::Global;
use std::collections::BTreeMap;
use std::marker::Model;
use type_table::TypeFault;

/// The types that declarations with `auto` gave to file variables so far, by their numbers.
///
/// Contracts see them in the order in which they were settled; of one number the first counts.
#[derive(Drop)]
pub struct Settled {
    all: Vec<(u32, Kind)>,
    /// The type of each number, so that a variable costs no search.
    kinds: BTreeMap<u32, Kind>,
}

impl Model for Settled {
    ghost use Rattle.std.specs.Prelude.{List, ℕ};
    ghost use Rattle.ck_values.specs.declared.kind.Kind.{Kind};

    ghost Value = { List (ℕ × Kind) };

    ghost view = { λ it. it.all.items };

    ghost use Rattle.check_scope.specs.Scope.{AreFound};

    ghost invariant = { λ it. AreFound it.kinds it.all.items };
}

impl Settled {
    /// None. It takes no memory.
    pub fn none(alloc: Global) -> Settled
        ensures { result ≡ [] }
    {
        Settled {
            all: Vec::new(alloc),
            kinds: BTreeMap::new(alloc),
        }
    }

    /// All in the order in which they were settled.
    pub fn all(&self) -> &[(u32, Kind)]
        ensures { result.now ≡ self.now }
    {
        self.all.as_slice()
    }

    /// The type of the file variable of this number; where none was settled, the other.
    pub(crate) fn kind_or(&self, index: u32, other: Kind) -> Kind
        ensures { result ≡ settled_or other (settled_at index self.now) }
    {
        match self.kinds.get(&index) {
            Some(kind) => *kind,
            None => other,
        }
    }

    /// One more. Without memory for it nothing changes.
    pub(crate) fn add(&mut self, index: u32, kind: Kind) -> Result<(), TypeFault>
        ensures added { OnOk result (self.new ≡ self.old ++ (index, kind) ∷ []) }
        ensures kept { OnErr result (self.new ≡ self.old) }
        ensures memory { IfErr result (λ why. why ≡ memory out_of_memory) }
    {
        self.all.push((index, kind))?;
        if self.kinds.contains_key(&index) {
            return Ok(());
        }
        if let Err(failed) = self.kinds.insert(index, kind) {
            self.all.pop();
            return Err(TypeFault::Memory(failed.into()));
        }
        Ok(())
    }
}
