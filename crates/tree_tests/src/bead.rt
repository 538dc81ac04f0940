//! An item whose sums are refused where they have some width, as if an allocation had failed.
use crate::numbered::Numbered;
use std::alloc::Global;
use sum_tree::{Item, KeyedItem, OutOfMemory, Summary};

// A width modulo 64. No sum has room for the width 63.
#[derive(Drop)]
pub(crate) struct Barred {
    pub(crate) width: u64,
}

impl Summary for Barred {
    ghost use Rattle.std.specs.Prelude.{◌+◌, ◌%◌, ◌<◌};
    ghost use Rattle.std.proofs.Common.{ap, arith};

    ghost empty = { record { width = 0 } };

    ghost op = { λ a b. record { width = (a.width + b.width) % 64 } };

    ghost admits = { λ a. a.width < 64 };

    ghost fits = { λ a. Unit };

    ghost single = { λ a. Unit };

    ghost laws = { record {
      empty_admitted = Prim.omega arith;
      op_admitted = λ a b p q. Prim.omega arith;
      left_identity = λ a p. ap (λ w. record { width = w }) (Prim.omega arith);
      right_identity = λ a p. ap (λ w. record { width = w }) (Prim.omega arith);
      assoc = λ a b c p q r. ap (λ w. record { width = w }) (Prim.omega arith);
      empty_fits = tt;
      fits_parts = λ a b c p q r h. tt;
    } };

    fn zero(_alloc: Global) -> Barred {
        Barred { width: 0 }
    }

    fn add(&mut self, _alloc: Global, other: &Barred) -> Result<(), OutOfMemory> {
        let width = self.width.wrapping_add(other.width) % 64;
        if width == 63 {
            return Err(OutOfMemory);
        }
        self.width = width;
        Ok(())
    }
}

// A number with a width of 1 to 3.
#[derive(Clone, Copy)]
pub(crate) struct Bead {
    pub(crate) number: u64,
}

impl Item for Bead {
    type Summary = Barred;

    ghost use Rattle.std.specs.Prelude.{◌+◌, ◌%◌};
    ghost use Rattle.std.proofs.Common.{arith};

    ghost sum_of = { λ bead. record { width = bead.number % 3 + 1 } };

    ghost admitted = { λ bead. Prim.omega arith };

    ghost is_single = { λ bead. tt };

    fn summary(&self, _alloc: Global) -> Result<Barred, OutOfMemory> {
        Ok(Barred {
            width: self.number % 3 + 1,
        })
    }

    fn copy(&self, _alloc: Global) -> Result<Bead, OutOfMemory> {
        Ok(*self)
    }
}

impl KeyedItem for Bead {
    type Key = u64;

    ghost key_of = { λ bead. bead.number };

    fn key(&self) -> u64 {
        self.number
    }
}

impl Numbered for Bead {
    ghost sums_fit = { λ xs h. tt };

    fn of_number(_alloc: Global, number: u64) -> Result<Bead, OutOfMemory> {
        Ok(Bead { number })
    }

    fn key_at(number: u64) -> u64 {
        number
    }

    fn number(&self) -> u64 {
        self.number
    }
}
