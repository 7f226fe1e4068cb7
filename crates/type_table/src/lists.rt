//! Lists of the numbers of classes.
ghost use Rattle.std.specs.Prelude.{◌≡◌, [], ◌∷◌, ◌++◌, length, slice_get, OnOk, OnErr};
ghost use Rattle.std.specs.Option.{option_map};
ghost use Rattle.type_table.specs.Lists.{and_number};

use fixed_point::Memory;
use std::alloc::Global;
use std::marker::Model;

/// Numbers of classes.
#[derive(Drop)]
pub(crate) struct Numbers {
    all: Vec<u32>,
}

impl Model for Numbers {
    ghost use Rattle.std.specs.Prelude.{List, ℕ};

    ghost Value = { List ℕ };

    ghost view = { λ it. it.all.items };
}

impl Numbers {
    /// No number.
    fn new(alloc: Global) -> Numbers
        ensures { result ≡ [] }
    {
        Numbers {
            all: Vec::new(alloc),
        }
    }

    /// A number more.
    fn push(&mut self, number: u32) -> Result<(), Memory>
        ensures pushed { OnOk result (self.new ≡ self.old ++ number ∷ []) }
        ensures kept { OnErr result (self.new ≡ self.old) }
    {
        self.all.push(number)?;
        Ok(())
    }

    /// The numbers in order.
    fn items(&self) -> &[u32]
        ensures { result.now ≡ self.now }
    {
        self.all.as_slice()
    }
}

/// Lists of numbers of classes, one behind the other.
#[derive(Drop)]
pub(crate) struct Lists {
    all: Vec<Numbers>,
}

impl Model for Lists {
    ghost use Rattle.std.specs.Prelude.{List, ℕ};

    ghost Value = { List (List ℕ) };

    ghost view = { λ it. it.all.items };
}

impl Lists {
    /// No list.
    pub(crate) fn new(alloc: Global) -> Lists
        ensures { result ≡ [] }
    {
        Lists {
            all: Vec::new(alloc),
        }
    }

    /// How many lists there are.
    pub(crate) fn len(&self) -> usize
        ensures { result ≡ length self.now }
    {
        self.all.len()
    }

    /// The list that stands behind so many others.
    pub(crate) fn get(&self, list: usize) -> Option<&[u32]>
        ensures { option_map (λ numbers. numbers.now) result ≡ slice_get self.now list }
    {
        match self.all.get(list) {
            Some(numbers) => Some(numbers.items()),
            None => None,
        }
    }

    /// A list more, which has no number yet.
    pub(crate) fn push_empty(&mut self, alloc: Global) -> Result<(), Memory>
        ensures { OnOk result (self.new ≡ self.old ++ [] ∷ []) }
    {
        self.all.push(Numbers::new(alloc))?;
        Ok(())
    }

    /// A list more, with one number.
    pub(crate) fn push_one(&mut self, alloc: Global, number: u32) -> Result<(), Memory>
        ensures pushed { OnOk result (self.new ≡ self.old ++ (number ∷ []) ∷ []) }
        ensures kept { OnErr result (self.new ≡ self.old) }
    {
        let mut numbers = Numbers::new(alloc);
        numbers.push(number)?;
        self.all.push(numbers)?;
        Ok(())
    }

    /// A number more in a list, where there is one.
    #[tactic(auto, using(crate::proofs::Changes::set_past, crate::proofs::Changes::set_self))]
    pub(crate) fn add(&mut self, list: usize, number: u32) -> Result<(), Memory>
        ensures added { OnOk result (self.new ≡ and_number self.old list number) }
        ensures kept { OnErr result (self.new ≡ self.old) }
    {
        if list >= self.all.len() {
            return Ok(());
        }
        self.all[list].push(number)
    }
}
