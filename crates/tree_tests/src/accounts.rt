//! Changes of a tree and of a plain list of its numbers, some of which are refused: a tree that refused one is as before.
ghost use Rattle.std.specs.Prelude.{◌≡◌};
ghost use Rattle.sum_tree.specs.Keyed.{Ascending};

use crate::changes::{append_to, listed_tree, push_all, set_key, splice_in};
use crate::mirror::{mirrors, numbers_from, replace};
use crate::numbered::Numbered;
use std::alloc::Global;
use sum_tree::{OutOfMemory, SumTree};

// What a tree should hold, whether it is compared with that after each change, how many changes failed, and whether all was
// right so far.
#[derive(Drop)]
pub(crate) struct Account {
    pub(crate) numbers: Vec<u64>,
    compares: bool,
    failed: u64,
    right: bool,
}

impl Account {
    pub(crate) fn new(alloc: Global, compares: bool) -> Account {
        Account {
            numbers: Vec::new(alloc),
            compares,
            failed: 0,
            right: true,
        }
    }

    // Counts a change that failed.
    pub(crate) fn count(&mut self, failed: bool) {
        self.failed = self.failed.saturating_add(failed as u64);
    }

    pub(crate) fn check(&mut self, right: bool) {
        self.right = self.right & right;
    }

    // Takes the new numbers where a change was made, and looks at the tree.
    fn look<T: Numbered>(
        &mut self,
        tree: &SumTree<T>,
        after: Vec<u64>,
        made: Result<bool, OutOfMemory>,
    ) {
        match made {
            Ok(right) => {
                self.numbers = after;
                self.check(right);
            }
            Err(_) => self.count(true),
        }
        if self.compares {
            let right = mirrors(tree, &self.numbers);
            self.check(right);
        }
    }

    // Whether all was right, and this number of changes failed.
    pub(crate) fn is_right(&self, least: u64, most: u64) -> bool {
        self.right & (self.failed >= least) & (self.failed <= most)
    }
}

// How a tree is changed.
#[derive(Clone, Copy)]
pub(crate) enum Way {
    Push,
    List,
    Append,
    Splice,
    Cut,
}

// A change: numbers from the first one on in the place of a range.
#[derive(Clone, Copy)]
pub(crate) struct Change {
    pub(crate) way: Way,
    pub(crate) range: (usize, usize),
    pub(crate) first: u64,
    pub(crate) count: u64,
}

// Cuts a tree into a front and a rest, which are trees of their own, and puts them end to end.
fn rejoins<T: Numbered>(
    alloc: Global,
    tree: &SumTree<T>,
    numbers: &[u64],
    at: usize,
) -> Result<bool, OutOfMemory> {
    if at > numbers.len() {
        return Ok(false);
    }
    let mut front = tree.take_front(alloc, at as u64)?;
    let back = tree.drop_front(alloc, at as u64)?;
    let right = mirrors(&front, &numbers[..at]) & mirrors(&back, &numbers[at..]);
    append_to(alloc, &mut front, back)?;
    Ok(right & mirrors(&front, numbers))
}

// Changes a tree, and answers whether its parts are right where it is cut.
fn apply<T: Numbered>(
    alloc: Global,
    tree: &mut SumTree<T>,
    change: Change,
    numbers: &[u64],
    others: &[u64],
) -> Result<bool, OutOfMemory> {
    match change.way {
        Way::Push => push_all(alloc, tree, others)?,
        Way::List => *tree = listed_tree(alloc, others)?,
        Way::Append => append_to(alloc, tree, listed_tree(alloc, others)?)?,
        Way::Splice => splice_in(alloc, tree, change.range, others)?,
        Way::Cut => return rejoins(alloc, tree, numbers, change.range.0),
    }
    Ok(true)
}

// Changes a tree and its account.
pub(crate) fn change_both<T: Numbered>(
    alloc: Global,
    tree: &mut SumTree<T>,
    account: &mut Account,
    change: Change,
) -> Result<(), OutOfMemory> {
    let others = numbers_from(alloc, change.first, change.count)?;
    let after = replace(alloc, &account.numbers, change.range, &others)?;
    let made = apply(alloc, tree, change, &after, &others);
    account.look(tree, after, made);
    Ok(())
}

// The same while another tree shares the nodes, which stays as it was; of a large one the length is compared alone.
pub(crate) fn change_shared<T: Numbered>(
    alloc: Global,
    tree: &mut SumTree<T>,
    account: &mut Account,
    change: Change,
) -> Result<(), OutOfMemory> {
    let before = account.numbers.clone()?;
    let old = tree.share()?;
    change_both(alloc, tree, account, change)?;
    account.check(old.len() == before.len() as u64);
    if before.len() < 2000 {
        account.check(mirrors(&old, &before));
    }
    Ok(())
}

// What is done with a key: it is inserted, taken out, or the one of these that changes the tree.
#[derive(Clone, Copy)]
pub(crate) enum Deed {
    Insert,
    Remove,
    Toggle,
}

// Whether a tree answers a number where there was one, when it is inserted or taken out.
fn answers<T: Numbered>(
    alloc: Global,
    tree: &mut SumTree<T>,
    inserts: bool,
    number: u64,
    there: bool,
) -> Result<bool, OutOfMemory>
    requires ascending { Ascending T.Key.cmp T.key_of tree.old.items }
    ensures ascending { Ascending T.Key.cmp T.key_of tree.new.items }
{
    let old = set_key(alloc, tree, inserts, number)?;
    Ok(old == (if there { Some(number) } else { None }))
}

// Inserts a number or takes it out, in a tree and its account.
pub(crate) fn change_key<T: Numbered>(
    alloc: Global,
    tree: &mut SumTree<T>,
    account: &mut Account,
    deed: Deed,
    number: u64,
) -> Result<(), OutOfMemory>
    requires ascending { Ascending T.Key.cmp T.key_of tree.old.items }
    ensures ascending { Ascending T.Key.cmp T.key_of tree.new.items }
{
    let (at, there) = place_of(&account.numbers, number);
    let inserts = is_insert(deed, there);
    let end = at.saturating_add(there as usize);
    let others = numbers_from(alloc, number, inserts as u64)?;
    let after = replace(alloc, &account.numbers, (at, end), &others)?;
    let made = answers(alloc, tree, inserts, number, there);
    account.look(tree, after, made);
    Ok(())
}

fn is_insert(deed: Deed, there: bool) -> bool {
    match deed {
        Deed::Insert => true,
        Deed::Remove => false,
        Deed::Toggle => !there,
    }
}

// Where a number is, or would be, and whether it is there.
pub(crate) fn place_of(numbers: &[u64], number: u64) -> (usize, bool) {
    match numbers.binary_search(&number) {
        Ok(at) => (at, true),
        Err(at) => (at, false),
    }
}
