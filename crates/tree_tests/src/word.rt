//! An item that holds a text, and a sum that holds a list, so that copies and sums allocate.
ghost use Rattle.std.specs.Prelude.{◌≡◌};

use crate::numbered::Numbered;
use smallvec::SmallVec;
use std::alloc::Global;
use std::marker::Model;
use sum_tree::{Item, KeyedItem, OutOfMemory, Summary};

// The numbers of a run of items, of which four are not allocated. Contracts see it as their list.
#[derive(Drop)]
pub(crate) struct Numbers {
    list: SmallVec<u64, 4>,
}

impl Model for Numbers {
    ghost use Rattle.std.specs.Prelude.{List, ℕ};

    ghost Value = { List ℕ };

    ghost view = { λ numbers. numbers.list.items };
}

impl Numbers {
    pub(crate) fn as_slice(&self) -> &[u64]
        ensures { result.now ≡ self.now }
    {
        self.list.as_slice()
    }
}

impl Summary for Numbers {
    ghost use Rattle.std.specs.Prelude.{[], ◌++◌, refl};
    ghost use Rattle.std.proofs.lemmas.List.{append_assoc, append-nil};

    ghost empty = { [] };

    ghost op = { λ a b. a ++ b };

    ghost admits = { λ a. Unit };

    ghost fits = { λ a. Unit };

    ghost single = { λ a. Unit };

    ghost laws = { record {
      empty_admitted = tt;
      op_admitted = λ a b p q. tt;
      left_identity = λ a p. refl;
      right_identity = λ a p. append-nil a;
      assoc = λ a b c p q r. append_assoc a b c;
      empty_fits = tt;
      fits_parts = λ a b c p q r h. tt;
    } };

    fn zero(alloc: Global) -> Numbers {
        Numbers {
            list: SmallVec::new(alloc),
        }
    }

    fn add(&mut self, _alloc: Global, other: &Numbers) -> Result<(), OutOfMemory> {
        self.list.extend_from_slice(other.as_slice())
    }
}

// A number, and a text that says it. Contracts see the number and the text's bytes.
#[derive(Drop)]
pub(crate) struct Word {
    number: u64,
    text: String,
}

impl Model for Word {
    ghost use Rattle.std.specs.Prelude.{List, ℕ};

    ghost Value = { ℕ × List ℕ };

    ghost view = { λ word. (word.number, word.text.bytes.items) };
}

impl Item for Word {
    type Summary = Numbers;

    ghost use Rattle.std.specs.Prelude.{[], ◌∷◌};

    ghost sum_of = { λ word. word.0 ∷ [] };

    ghost admitted = { λ word. tt };

    ghost is_single = { λ word. tt };

    fn summary(&self, alloc: Global) -> Result<Numbers, OutOfMemory> {
        let list = SmallVec::from_slice(alloc, &[self.number])?;
        Ok(Numbers { list })
    }

    fn copy(&self, alloc: Global) -> Result<Word, OutOfMemory> {
        let text = String::from_str(alloc, self.text.as_str())?;
        Ok(Word {
            number: self.number,
            text,
        })
    }
}

impl KeyedItem for Word {
    type Key = u64;

    ghost key_of = { λ word. word.0 };

    fn key(&self) -> u64 {
        self.number
    }
}

impl Numbered for Word {
    ghost sums_fit = { λ xs h. tt };

    fn of_number(alloc: Global, number: u64) -> Result<Word, OutOfMemory> {
        let text = format!(in alloc; "{number}")?;
        Ok(Word { number, text })
    }

    fn key_at(number: u64) -> u64 {
        number
    }

    // The number, where the text says the same.
    fn number(&self) -> u64 {
        match self.text.as_str().parse::<u64>() {
            Ok(told) if told == self.number => told,
            _ => u64::MAX,
        }
    }
}
