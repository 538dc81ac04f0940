//! Trees against plain lists, and by their keys, with ample memory and where changes are refused.
ghost use Rattle.std.specs.Prelude.{◌≡◌};
ghost use Rattle.sum_tree.specs.Keyed.{Ascending};

use crate::accounts::{
    Account, Change, Deed, Way, change_both, change_key, change_shared, place_of,
};
use crate::bead::Bead;
use crate::chance::step;
use crate::changes::{append_to, pushed_tree, set_key, tree_of_one};
use crate::cursors::tree_of;
use crate::mirror::{mirrors, number_of, numbers_from};
use crate::numbered::Numbered;
use crate::ranked::{Number, Ranked};
use crate::word::Word;
use std::alloc::Global;
use sum_tree::{OutOfMemory, SumTree};

// A tree that is made of the numbers up to n in some way, and then changed in some rounds, of which a given number may fail.
#[derive(Clone, Copy)]
struct Life {
    made: Way,
    n: u64,
    draws: Draws,
    rounds: u64,
    failures: (u64, u64),
}

// Which changes are drawn: of all kinds, or those that put runs of items in the place of others, in a tree that is shared.
#[derive(Clone, Copy)]
enum Draws {
    All,
    Splices,
}

// A change at the end of a list.
fn change_at(way: Way, at: usize, first: u64, count: u64) -> Change {
    Change {
        way,
        range: (at, at),
        first,
        count,
    }
}

// The splice that x draws: at most `most` items go, and `come` come.
fn drawn_splice(x: u64, len: usize, most: usize, come: u64) -> Change {
    let from = (x >> 20) as usize % len.saturating_add(1);
    let gone = (x >> 40) as usize % most.max(1);
    Change {
        way: Way::Splice,
        range: (from, from.saturating_add(gone).min(len)),
        first: 0,
        count: (x >> 50) % come.max(1),
    }
}

// The change that x draws of a list of `len` items.
fn drawn_change(x: u64, len: usize) -> Change {
    let from = (x >> 20) as usize % len.saturating_add(1);
    match x >> 61 {
        0 | 1 => change_at(Way::Push, len, x >> 40, 1),
        2 => change_at(Way::Append, len, 0, (x >> 40) % 30),
        3 => drawn_splice(x, len, 30, 30),
        4 => change_at(Way::Cut, from, 0, 0),
        _ => drawn_splice(x, len, 4, 4),
    }
}

// One round: every third one of all draws, and each one of splices, is made while another tree shares the nodes.
fn change_once<T: Numbered>(
    alloc: Global,
    tree: &mut SumTree<T>,
    account: &mut Account,
    draws: Draws,
    (round, x): (u64, u64),
) -> Result<(), OutOfMemory> {
    let len = account.numbers.len();
    match draws {
        Draws::Splices => change_shared(alloc, tree, account, drawn_splice(x, len, 30, 27)),
        Draws::All => {
            if round % 3 == 0 {
                change_shared(alloc, tree, account, drawn_change(x, len))
            } else {
                change_both(alloc, tree, account, drawn_change(x, len))
            }
        }
    }
}

fn change_often<T: Numbered>(
    alloc: Global,
    tree: &mut SumTree<T>,
    account: &mut Account,
    draws: Draws,
    rounds: u64,
) {
    let mut x = 1u64;
    for round in 0..rounds {
        x = step(x);
        let done = change_once(alloc, tree, account, draws, (round, x));
        account.count(done.is_err());
    }
}

// Cuts a tree of n items at its ends and at some places between.
fn cut_everywhere<T: Numbered>(
    alloc: Global,
    tree: &mut SumTree<T>,
    account: &mut Account,
) -> Result<(), OutOfMemory> {
    let n = account.numbers.len();
    for at in [0, 1, 6, 12, 13, 72, n / 3, n / 2, n.saturating_sub(1), n] {
        if at <= n {
            change_both(alloc, tree, account, change_at(Way::Cut, at, 0, 0))?;
        }
    }
    Ok(())
}

// Makes a tree, cuts it, and changes it.
fn live<T: Numbered>(
    alloc: Global,
    tree: &mut SumTree<T>,
    account: &mut Account,
    life: &Life,
) -> Result<(), OutOfMemory> {
    change_both(alloc, tree, account, change_at(life.made, 0, 0, life.n))?;
    cut_everywhere(alloc, tree, account)?;
    change_often(alloc, tree, account, life.draws, life.rounds);
    Ok(())
}

fn lives<T: Numbered>(alloc: Global, life: &Life) -> Result<bool, OutOfMemory> {
    let mut tree: SumTree<T> = SumTree::new(alloc)?;
    let mut account = Account::new(alloc, true);
    live(alloc, &mut tree, &mut account, life)?;
    Ok(account.is_right(life.failures.0, life.failures.1))
}

const MAKES: &[(&str, Way)] = &[("pushed", Way::Push), ("listed", Way::List)];

// The tree of n items, of which ranges are replaced.
fn is_list<T: Numbered>(alloc: Global, made: Way, n: u64) -> Result<bool, OutOfMemory> {
    let life = Life {
        made,
        n,
        draws: Draws::Splices,
        rounds: 60,
        failures: (0, 0),
    };
    lives::<T>(alloc, &life)
}

#[test]
fn trees_are_lists(rt: HostRuntime) -> Result<(), OutOfMemory> {
    for &(name, made) in MAKES {
        for n in [0, 1, 6, 12, 13, 72, 73, 156, 157, 2000, 5000] {
            assert!(rt;
                is_list::<Ranked>(rt.alloc(), made, n)?,
                "{n} numbers, {name}"
            );
        }
        for n in [0, 1, 12, 13, 72, 73, 156, 157, 1000] {
            assert!(rt; is_list::<Word>(rt.alloc(), made, n)?, "{n} words, {name}");
        }
    }
    Ok(())
}

const ROOMY: &Life = &Life {
    made: Way::Push,
    n: 0,
    draws: Draws::All,
    rounds: 300,
    failures: (0, 1),
};

const REFUSED: &Life = &Life {
    made: Way::Push,
    n: 0,
    draws: Draws::All,
    rounds: 600,
    failures: (30, 300),
};

// Where a test is run with one allocation that fails, it fails in one of these rounds.
#[test]
fn changes_leave_lists(rt: HostRuntime) -> Result<(), OutOfMemory> {
    assert!(rt; lives::<Ranked>(rt.alloc(), ROOMY)?, "numbers");
    assert!(rt; lives::<Word>(rt.alloc(), ROOMY)?, "words");
    assert!(rt;
        lives::<Bead>(rt.alloc(), REFUSED)?,
        "beads, of which some are refused"
    );
    Ok(())
}

// Keys that are inserted and taken out, whether the tree is compared after each, and how many of these changes may fail.
struct Keys {
    name: &'static str,
    drawn: Drawn,
    rounds: usize,
    compares: bool,
    failures: (u64, u64),
}

#[derive(Clone, Copy)]
enum Drawn {
    // The numbers below 1000 in a mixed order, and then the even ones are taken out.
    Halved,
    // By chance, among a thousand numbers, and later among fewer.
    Toggled,
}

fn draw_key(drawn: Drawn, round: usize, x: u64) -> (Deed, u64) {
    match drawn {
        Drawn::Halved if round < 1000 => (Deed::Insert, (round as u64 * 387) % 1000),
        Drawn::Halved => (Deed::Remove, (round as u64 % 1000) * 2),
        Drawn::Toggled if round < 200 => (Deed::Toggle, (x >> 20) % 1000),
        Drawn::Toggled => (Deed::Toggle, (x >> 20) % 250),
    }
}

// Whether the numbers of a list are found, and no others below 1001.
fn finds<T: Numbered>(tree: &SumTree<T>, numbers: &[u64]) -> bool
    requires ascending { Ascending T.Key.cmp T.key_of tree.now.items }
{
    let mut right = true;
    for number in 0..1001u64 {
        let found = number_of(tree.find(&T::key_at(number)));
        let (_, there) = place_of(numbers, number);
        right = right & (found == (if there { Some(number) } else { None }));
    }
    right
}

fn change_keys<T: Numbered>(
    alloc: Global,
    tree: &mut SumTree<T>,
    account: &mut Account,
    drawn: Drawn,
    rounds: usize,
)
    requires ascending { Ascending T.Key.cmp T.key_of tree.old.items }
{
    let mut x = 1u64;
    for round in 0..rounds {
        x = step(x);
        let (deed, number) = draw_key(drawn, round, x);
        let done = change_key(alloc, tree, account, deed, number);
        account.count(done.is_err());
    }
    let right = finds(tree, &account.numbers);
    account.check(right);
}

// Changes a tree by its keys.
fn are_right<T: Numbered>(alloc: Global, keys: &Keys) -> Result<bool, OutOfMemory> {
    let mut tree: SumTree<T> = SumTree::new(alloc)?;
    let mut account = Account::new(alloc, keys.compares);
    change_keys(alloc, &mut tree, &mut account, keys.drawn, keys.rounds);
    let right = mirrors(&tree, &account.numbers);
    Ok(right & account.is_right(keys.failures.0, keys.failures.1))
}

const ROOMY_KEYS: &[Keys] = &[
    Keys {
        name: "a thousand keys",
        drawn: Drawn::Halved,
        rounds: 1000,
        compares: false,
        failures: (0, 0),
    },
    Keys {
        name: "half of a thousand keys",
        drawn: Drawn::Halved,
        rounds: 1500,
        compares: false,
        failures: (0, 0),
    },
    Keys {
        name: "keys by chance",
        drawn: Drawn::Toggled,
        rounds: 400,
        compares: true,
        failures: (0, 1),
    },
];

const REFUSED_KEYS: &Keys = &Keys {
    name: "keys of which some are refused",
    drawn: Drawn::Toggled,
    rounds: 600,
    compares: true,
    failures: (30, 300),
};

// Whether a key is inserted or else taken out, and what is answered.
const FEW: &[(bool, u64, Option<u64>)] = &[
    (true, 2, None),
    (true, 5, None),
    (true, 3, None),
    (true, 5, Some(5)),
    (false, 2, Some(2)),
    (false, 9, None),
];

fn answers_few<T: Numbered>(alloc: Global, tree: &mut SumTree<T>) -> Result<bool, OutOfMemory>
    requires ascending { Ascending T.Key.cmp T.key_of tree.old.items }
{
    let mut right = true;
    for &(inserts, number, expected) in FEW {
        right = right & (set_key(alloc, tree, inserts, number)? == expected);
    }
    Ok(right & finds(tree, &[3, 5]))
}

// Changes a few keys, and puts the tree of one number behind.
fn takes_few<T: Numbered>(alloc: Global, tree: &mut SumTree<T>) -> Result<bool, OutOfMemory>
    requires ascending { Ascending T.Key.cmp T.key_of tree.old.items }
{
    let right = answers_few(alloc, tree)?;
    append_to(alloc, tree, tree_of_one(alloc, 8)?)?;
    Ok(right & mirrors(tree, &[3, 5, 8]))
}

fn ascends<T: Numbered>(alloc: Global) -> Result<bool, OutOfMemory> {
    let mut tree: SumTree<T> = SumTree::new(alloc)?;
    takes_few(alloc, &mut tree)
}

#[test]
fn keys_ascend(rt: HostRuntime) -> Result<(), OutOfMemory> {
    assert!(rt; ascends::<Ranked>(rt.alloc())?, "few keys, ranked");
    assert!(rt; ascends::<Word>(rt.alloc())?, "few keys, words");
    assert!(rt; ascends::<Number>(rt.alloc())?, "few keys, numbers");
    for keys in ROOMY_KEYS {
        assert!(rt;
            are_right::<Ranked>(rt.alloc(), keys)?,
            "{}, ranked",
            keys.name
        );
        assert!(rt;
            are_right::<Word>(rt.alloc(), keys)?,
            "{}, words",
            keys.name
        );
        assert!(rt;
            are_right::<Number>(rt.alloc(), keys)?,
            "{}, numbers",
            keys.name
        );
    }
    assert!(rt;
        are_right::<Bead>(rt.alloc(), REFUSED_KEYS)?,
        "{}",
        REFUSED_KEYS.name
    );
    Ok(())
}

// Whether the sum of n words lists their numbers.
fn lists_numbers(alloc: Global, n: u64) -> Result<bool, OutOfMemory> {
    let numbers = numbers_from(alloc, 0, n)?;
    let tree: SumTree<Word> = pushed_tree(alloc, &numbers)?;
    Ok(tree.summary().as_slice() == numbers.as_slice())
}

#[test]
fn sums_hold_lists(rt: HostRuntime) -> Result<(), OutOfMemory> {
    for n in [0, 1, 4, 5, 12, 13, 73, 157, 2000] {
        assert!(rt; lists_numbers(rt.alloc(), n)?, "{n} words");
    }
    Ok(())
}

// Whether n items of width 1 are n wide together, in a tree of this height.
fn is_wide(alloc: Global, n: u64, height: u32) -> Result<bool, OutOfMemory> {
    let tree = tree_of(alloc, &[1], n)?;
    let extent = tree.summary();
    Ok((extent.items == n) & (extent.width == n) & (tree.height() == height))
}

#[test]
fn widths_are_added(rt: HostRuntime) -> Result<(), OutOfMemory> {
    for (n, height) in [(0, 0), (12, 0), (13, 1), (48, 1)] {
        assert!(rt; is_wide(rt.alloc(), n, height)?, "{n} items");
    }
    Ok(())
}
