//! How many things one class declares.
ghost use Rattle.std.specs.Prelude.{◌≡◌, ◌<◌, ◌≤◌, [], ◌∷◌, ◌++◌, length, OnOk, IfErr};
ghost use Rattle.ck_base.specs.declared.limits.TheConstants.{MAX_FILE_TOKENS};
ghost use Rattle.fixed_point.specs.Wanting.{out_of_memory};
ghost use Rattle.type_table.specs.declared.fault.TypeFault.TheVariants.{Memory as memory};

use crate::fault::TypeFault;
use ck_values::Kind;
use std::alloc::Global;
use std::marker::Model;

/// A number of things that one class declares: no more than a file has tokens.
#[derive(Drop)]
pub struct Count {
    count: u32,
}

impl Model for Count {
    ghost use Rattle.std.specs.Prelude.{ℕ, ◌≤◌};
    ghost use Rattle.ck_base.specs.declared.limits.TheConstants.{MAX_FILE_TOKENS};

    ghost Value = { ℕ };

    ghost view = { λ it. it.count };

    ghost invariant = { λ it. it.count ≤ MAX_FILE_TOKENS };
}

impl Count {
    /// None.
    pub(crate) fn zero() -> Count
        ensures { result ≡ 0 }
    {
        Count { count: 0 }
    }

    /// So many: no more than a file has tokens.
    pub fn of(number: usize) -> Count
        requires few { number ≤ MAX_FILE_TOKENS }
        ensures { result ≡ number }
    {
        Count {
            count: number as u32,
        }
    }

    /// The number.
    pub(crate) fn get(&self) -> u32
        ensures is { result ≡ self.now }
        ensures few { self.now ≤ MAX_FILE_TOKENS }
    {
        self.count
    }
}

/// The types of the fields that one class declares: no more than a file has tokens.
#[derive(Drop)]
pub(crate) struct Fields {
    kinds: Vec<Kind>,
}

impl Model for Fields {
    ghost use Rattle.std.specs.Prelude.{List, ◌≤◌, length};
    ghost use Rattle.ck_values.specs.declared.kind.Kind.{Kind};
    ghost use Rattle.ck_base.specs.declared.limits.TheConstants.{MAX_FILE_TOKENS};

    ghost Value = { List Kind };

    ghost view = { λ it. it.kinds.items };

    ghost invariant = { λ it. length it.kinds.items ≤ MAX_FILE_TOKENS };
}

impl Fields {
    /// None.
    pub(crate) fn new(alloc: Global) -> Fields
        ensures { result ≡ [] }
    {
        Fields {
            kinds: Vec::new(alloc),
        }
    }

    /// Their types in order.
    pub(crate) fn kinds(&self) -> &[Kind]
        ensures are { result.now ≡ self.now }
        ensures few { length self.now ≤ MAX_FILE_TOKENS }
    {
        self.kinds.as_slice()
    }

    /// One field more.
    pub(crate) fn push(&mut self, kind: Kind) -> Result<(), TypeFault>
        requires few { length self.old < MAX_FILE_TOKENS }
        ensures pushed { OnOk result (self.new ≡ self.old ++ kind ∷ []) }
        ensures memory { IfErr result (λ why. why ≡ memory out_of_memory) }
    {
        self.kinds.push(kind)?;
        Ok(())
    }
}
