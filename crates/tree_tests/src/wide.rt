//! Items with a width and a name, with dimensions that hold references: into a summary, and to a set outside.
ghost use Rattle.std.specs.Prelude.{◌≡◌, ℕ, ◌+◌, ◌-◌, ◌^◌, ◌<◌, ◌≤◌, ◌%◌, Bool, Option, Some, None, nat_lt, cond, refl, length, [], IfOk, OnOk};
ghost use Rattle.std.specs.Option.{option_copied};
ghost use Rattle.tree_cursor.specs.Keys.{greater};

use std::alloc::Global;
use sum_tree::{Item, OutOfMemory, Summary};
use tree_cursor::{Bias, Dimension, Keep, Moves, Plain, Target};

// A name, which is not `Copy`.
#[derive(Drop)]
pub(crate) struct Name {
    pub(crate) id: u64,
}

#[derive(Drop)]
pub(crate) struct Wide {
    pub(crate) width: u64,
    pub(crate) id: u64,
}

// How many items, how wide they are together, how many have an odd name, and the greatest name.
#[derive(Drop)]
pub(crate) struct Extent {
    pub(crate) items: u64,
    pub(crate) width: u64,
    pub(crate) odd: u64,
    pub(crate) name: Option<Name>,
}

// What an item is named, and what a name is.
pub(crate) fn id_of(item: Option<&Wide>) -> Option<u64> {
    match item {
        None => None,
        Some(item) => Some(item.id),
    }
}

pub(crate) fn name_id(name: Option<&Name>) -> Option<u64> {
    match name {
        None => None,
        Some(name) => Some(name.id),
    }
}

impl Summary for Extent {
    ghost use Rattle.tree_cursor.specs.Keys.{greater};
    ghost use Rattle.tree_cursor.specs.KeyLaws.{greater_none, greater_assoc, number_less};
    ghost use Rattle.tree_tests.specs.Joined.{four};
    ghost use Rattle.std.proofs.Common.{arith};

    ghost empty = { record { items = 0; width = 0; odd = 0; name = None } };

    ghost op = { λ a b. record {
      items = a.items + b.items;
      width = a.width + b.width;
      odd = a.odd + b.odd;
      name = greater (λ x y. nat_lt x.id y.id) a.name b.name;
    } };

    ghost admits = { λ a. a.odd ≤ a.items };

    ghost fits = { λ a. (a.items < 2 ^ 64) × (a.width < 2 ^ 64) × (a.odd < 2 ^ 64) };

    ghost single = { λ a. a.items ≡ 1 };

    ghost laws = { record {
      empty_admitted = Prim.omega arith;
      op_admitted = λ a b p q. Prim.omega arith;
      left_identity = λ a p. four (λ i w o n. record { items = i; width = w; odd = o; name = n })
          (Prim.omega arith) (Prim.omega arith) (Prim.omega arith) refl;
      right_identity = λ a p. four (λ i w o n. record { items = i; width = w; odd = o; name = n })
          (Prim.omega arith) (Prim.omega arith) (Prim.omega arith) (greater_none _ a.name);
      assoc = λ a b c p q r. four (λ i w o n. record { items = i; width = w; odd = o; name = n })
          (Prim.omega arith) (Prim.omega arith) (Prim.omega arith)
          (greater_assoc _ (number_less (λ x. x.id)) a.name b.name c.name);
      empty_fits = (Prim.omega arith, Prim.omega arith, Prim.omega arith);
      fits_parts = λ a b c p q r h. (Prim.omega arith, Prim.omega arith, Prim.omega arith);
    } };

    fn zero(_alloc: Global) -> Extent {
        Extent {
            items: 0,
            width: 0,
            odd: 0,
            name: None,
        }
    }

    fn add(&mut self, _alloc: Global, other: &Extent) -> Result<(), OutOfMemory> {
        self.items += other.items;
        self.width += other.width;
        self.odd += other.odd;
        self.name = match later_name(self.name.as_ref(), &other.name) {
            None => None,
            Some(name) => Some(Name { id: name.id }),
        };
        Ok(())
    }
}

impl Item for Wide {
    type Summary = Extent;

    ghost use Rattle.std.proofs.Common.{arith};

    ghost sum_of = { λ x. record {
      items = 1;
      width = x.width;
      odd = x.id % 2;
      name = Some (record { id = x.id });
    } };

    ghost admitted = { λ x. Prim.omega arith };

    ghost is_single = { λ x. refl };

    fn summary(&self, _alloc: Global) -> Result<Extent, OutOfMemory> {
        Ok(Extent {
            items: 1,
            width: self.width,
            odd: self.id % 2,
            name: Some(Name { id: self.id }),
        })
    }

    fn copy(&self, _alloc: Global) -> Result<Wide, OutOfMemory> {
        Ok(Wide {
            width: self.width,
            id: self.id,
        })
    }
}

// How wide what lies before is.
#[derive(Clone, Copy)]
pub(crate) struct Width {
    pub(crate) at: u64,
}

impl Plain for Width {
    type Value = u64;

    ghost plain = { λ d. d.at };

    ghost later = { λ p q. p ≤ q };
}

impl Moves<Extent> for Width {
    ghost use Rattle.tree_cursor.specs.CountingLaws.{adding_laws};

    ghost moved = { λ p s. Some (p + s.width) };

    ghost fits = { λ p s. p + s.width < 2 ^ 64 };

    ghost laws = { adding_laws _ _ _ _ (λ s. s.width) refl (λ a b. refl) };
}

impl<'a> Dimension<'a, Extent> for Width {
    fn try_add(self, s: &'a Extent) -> Option<Width> {
        Some(Width {
            at: self.at + s.width,
        })
    }
}

impl Target<Width> for Width {
    ghost use Rattle.tree_cursor.specs.Counting.{number_passes};
    ghost use Rattle.tree_cursor.specs.CountingLaws.{number_stays};

    ghost passes = { λ g p b. number_passes g.at p b };

    ghost stays = { λ g p q b h l. number_stays g.at p q b h l };

    fn passed(&self, at: Width, bias: Bias) -> bool {
        match bias {
            Bias::Left => self.at <= at.at,
            Bias::Right => self.at < at.at,
        }
    }
}

// The greatest name so far, lent by the summary that holds it.
#[derive(Clone, Copy)]
pub(crate) struct ByName<'a> {
    pub(crate) name: Option<&'a Name>,
}

impl<'a> Plain for ByName<'a> {
    type Value = Option<Name>;

    ghost use Rattle.tree_cursor.specs.Keys.{IsLaterKey};

    ghost plain = { λ d. option_copied d.name };

    ghost later = { IsLaterKey (λ x y. nat_lt x.id y.id) };
}

impl<'a> Moves<Extent> for ByName<'a> {
    ghost use Rattle.tree_cursor.specs.Keys.{greater};
    ghost use Rattle.tree_cursor.specs.KeyLaws.{key_laws, number_less};

    ghost moved = { λ p s. Some (greater (λ x y. nat_lt x.id y.id) p s.name) };

    ghost fits = { λ p s. Unit };

    ghost laws = { key_laws _ (number_less (λ x. x.id)) _ _ _ _ (λ s. s.name) refl
        (λ a b f g. refl) };
}

impl<'a> Dimension<'a, Extent> for ByName<'a> {
    fn try_add(self, s: &'a Extent) -> Option<ByName<'a>> {
        Some(ByName {
            name: later_name(self.name, &s.name),
        })
    }
}

// The greater of two names.
fn later_name<'n>(a: Option<&'n Name>, b: &'n Option<Name>) -> Option<&'n Name>
    ensures { option_copied result
        ≡ greater (λ x y. nat_lt x.id y.id) (option_copied a.entry) b.now }
{
    match (a, b) {
        (None, None) => None,
        (None, Some(y)) => Some(y),
        (Some(x), None) => Some(x),
        (Some(x), Some(y)) => { if x.id < y.id { Some(y) } else { Some(x) } }
    }
}

impl<'a> Target<ByName<'a>> for Name {
    ghost use Rattle.tree_cursor.specs.Keys.{key_passes};
    ghost use Rattle.tree_cursor.specs.KeyLaws.{key_stays, number_less};

    ghost passes = { λ g p b. key_passes (λ x y. nat_lt x.id y.id) (Some g) p b };

    ghost stays = { λ g p q b h l. key_stays _ (number_less (λ x. x.id)) (Some g) p q b h l };

    fn passed(&self, at: ByName<'a>, bias: Bias) -> bool {
        match at.name {
            None => false,
            Some(name) => match bias {
                Bias::Left => self.id <= name.id,
                Bias::Right => self.id < name.id,
            },
        }
    }
}

// A set of names: the odd ones, or the even ones.
#[derive(Drop)]
pub(crate) struct Parity {
    pub(crate) odd: bool,
}

// How many items before lie in a set that is borrowed from outside. A sum that lies partly in it is too coarse.
#[derive(Clone, Copy)]
pub(crate) struct Chosen<'v> {
    pub(crate) set: &'v Parity,
    pub(crate) items: u64,
}

impl<'v> Plain for Chosen<'v> {
    type Value = (Parity, u64);

    ghost plain = { λ d. (d.set.now, d.items) };

    ghost later = { λ p q. (p.0 ≡ q.0) × (p.1 ≤ q.1) };
}

impl<'v> Moves<Extent> for Chosen<'v> {
    ghost use Rattle.tree_tests.specs.Partly.{partly, chosen_count};
    ghost use Rattle.tree_tests.specs.PartlyLaws.{partly_laws, chosen_sum, chosen_few};

    ghost moved = { λ p s. partly (λ x. x.items) (λ c x. chosen_count c.odd x.items x.odd) p s };

    ghost fits = { λ p s. p.1 + s.items < 2 ^ 64 };

    ghost laws = { partly_laws (λ x. x.items) (λ c x. chosen_count c.odd x.items x.odd) _ _ _ _ refl
        (λ a b. refl) (λ c a b f g. chosen_sum c.odd a.items a.odd b.items b.odd f g)
        (λ c a f. chosen_few c.odd a.items a.odd f) (λ a s. s) };
}

impl<'a, 'v> Dimension<'a, Extent> for Chosen<'v> {
    fn try_add(self, s: &'a Extent) -> Option<Chosen<'v>> {
        let inside = if self.set.odd {
            s.odd
        } else {
            s.items.saturating_sub(s.odd)
        };
        if inside == s.items {
            Some(Chosen {
                set: self.set,
                items: self.items + s.items,
            })
        } else if inside == 0 {
            Some(self)
        } else {
            None
        }
    }
}

impl<'v> Target<Chosen<'v>> for u64 {
    ghost use Rattle.tree_cursor.specs.Counting.{number_passes};
    ghost use Rattle.tree_cursor.specs.CountingLaws.{number_stays};

    ghost passes = { λ g p b. number_passes g p.1 b };

    ghost stays = { λ g p q b h l. number_stays g p.1 q.1 b h l.1 };

    fn passed(&self, at: Chosen<'v>, bias: Bias) -> bool {
        match bias {
            Bias::Left => *self <= at.items,
            Bias::Right => *self < at.items,
        }
    }
}

// Keeps what has a width.
#[derive(Drop)]
pub(crate) struct HasWidth;

impl Keep<Extent> for HasWidth {
    ghost use Rattle.tree_cursor.specs.CountingLaws.{above_none};

    ghost keeps = { λ k s. nat_lt 0 s.width };

    ghost parts = { λ k a b f g h. above_none a.width b.width h };

    fn keep(&self, s: &Extent) -> bool {
        s.width > 0
    }
}
