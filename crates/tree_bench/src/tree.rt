//! Works on trees.
ghost use Rattle.std.specs.Ordering.{nat_cmp};
ghost use Rattle.sum_tree.specs.Keyed.{Ascending};
ghost use Rattle.tree_bench.specs.Items.{number_key, number_sum};

use crate::MOST;
use bench_reports::{Answer, Done, Report, step};
use std::alloc::Global;
use sum_tree::{Item, KeyedItem, OutOfMemory, SumTree};
use tree_cursor::Greatest;

/// An item that is ordered by its key.
#[derive(Clone, Copy)]
pub struct Number {
    pub key: u64,
}

impl Item for Number {
    type Summary = Greatest<u64>;

    ghost sum_of = { number_sum };

    ghost admitted = { λ _. tt };

    ghost is_single = { λ _. tt };

    fn summary(&self, _alloc: Global) -> Result<Greatest<u64>, OutOfMemory> {
        let key = Some(self.key);
        Ok(Greatest { key })
    }

    fn copy(&self, _alloc: Global) -> Result<Number, OutOfMemory> {
        Ok(*self)
    }
}

impl KeyedItem for Number {
    type Key = u64;

    ghost key_of = { number_key };

    fn key(&self) -> u64 {
        self.key
    }
}

type Numbers = SumTree<Number>;

/// Works on trees of `count` items, and on one of a tenth of them.
pub fn works(report: &mut Report<'_>, count: u32) -> Done {
    let (alloc, n) = (report.alloc(), count as u64);
    pushes(report, &mut SumTree::new(alloc)?, n)?;
    lists(report, list(alloc, n)?)?;
    texts(report, &mut SumTree::new(alloc)?, n / 10)?;
    keys(report, n)
}

fn pushes(report: &mut Report<'_>, tree: &mut Numbers, n: u64) -> Done {
    let alloc = report.alloc();
    report.begin();
    push_all(alloc, tree, n, false)?;
    report.add("Push", tree.len());
    let len = tree.len().max(1);
    report.sum("Get", n, |x| tree.get(x % len).map_or(0, |item| item.key));
    report.add("SharePush", push_all(alloc, tree, n / 10, true)?);
    Ok(())
}

fn lists(report: &mut Report<'_>, items: Vec<Number>) -> Done {
    let alloc = report.alloc();
    report.begin();
    if items.len() as u64 <= MOST {
        report.add("FromList", SumTree::from_list(alloc, items)?.len());
    }
    Ok(())
}

// Replaces items as typing replaces lines of a text, then also while another tree shares the nodes.
fn texts(report: &mut Report<'_>, tree: &mut Numbers, n: u64) -> Done {
    put(report.alloc(), tree, 0, 0, n)?;
    report.begin();
    type_all(report.alloc(), tree, n, false)?;
    report.add("Type", tree.len());
    type_all(report.alloc(), tree, n, true)?;
    report.add("ShareType", tree.len());
    Ok(())
}

fn keys(report: &mut Report<'_>, n: u64) -> Done {
    let alloc = report.alloc();
    let mut tree = SumTree::new(alloc)?;
    report.begin();
    by_keys(alloc, &mut tree, Call::Fill, n)?;
    report.add("Fill", tree.len());
    report.add("Find", by_keys(alloc, &mut tree, Call::Find, n)?);
    report.add("Insert", by_keys(alloc, &mut tree, Call::Insert, n)?);
    report.add("Remove", by_keys(alloc, &mut tree, Call::Remove, n)?);
    Ok(())
}

// The items with the keys below n.
fn list(alloc: Global, n: u64) -> Result<Vec<Number>, OutOfMemory> {
    Ok((0..n).map(|key| Number { key }).collect(alloc)?)
}

// Pushes n items, with `shared` each while another tree shares the nodes: the sum of the lengths of those trees.
fn push_all(alloc: Global, tree: &mut Numbers, n: u64, shared: bool) -> Answer {
    let mut sum = 0u64;
    for key in 0..n {
        let old = if shared { Some(tree.share()?) } else { None };
        if tree.len() < MOST {
            tree.push(alloc, Number { key })?;
        }
        sum = sum.wrapping_add(old.as_ref().map_or(0, |old| old.len()));
    }
    Ok(sum)
}

// Replaces a range by n items, where there is room for them.
#[tactic(auto, using(sum_tree::proofs::Lists::spliced_short))]
fn put(alloc: Global, tree: &mut Numbers, from: u64, to: u64, n: u64) -> Done {
    let items = list(alloc, n)?;
    if from > to || to > tree.len() || tree.len() >= MOST || items.len() as u64 >= MOST {
        return Ok(());
    }
    tree.splice(alloc, from, to, items)
}

// Replaces items n times at random, mostly one by one, with `shared` each time while another tree shares the nodes.
fn type_all(alloc: Global, tree: &mut Numbers, n: u64, shared: bool) -> Done {
    let mut x = 1u64;
    for _ in 0..n {
        x = step(x);
        let _old = if shared { Some(tree.share()?) } else { None };
        let at = (x >> 20) % tree.len().max(1);
        let (gone, count) = match x >> 61 {
            0 => (1, 2),
            1 if at.saturating_add(1) < tree.len() => (2, 1),
            _ => (1, 1),
        };
        put(alloc, tree, at, at.saturating_add(gone), count)?;
    }
    Ok(())
}

// What is done by a key, with the number that the draws of keys begin at.
#[derive(Clone, Copy)]
enum Call {
    Fill = 0,
    Find = 3,
    Insert = 1,
    Remove = 7,
}

// Works by n even keys in order, to fill a tree, or else by n / 10 keys drawn by chance: how many of the keys were
// there.
fn by_keys(alloc: Global, tree: &mut Numbers, call: Call, n: u64) -> Answer
    requires { Ascending nat_cmp number_key tree.old.items }
    ensures { Ascending nat_cmp number_key tree.new.items }
{
    let fills = matches!(call, Call::Fill);
    let bound = n.saturating_mul(2).saturating_add(1);
    let (mut there, mut x) = (0u64, call as u64);
    for number in 0..if fills { n } else { n / 10 } {
        x = step(x);
        let (even, drawn) = (number.saturating_mul(2), (x >> 20) % bound);
        let was_there = by_key(alloc, tree, call, if fills { even } else { drawn })?;
        there = there.wrapping_add(was_there as u64);
    }
    Ok(there)
}

// Whether a key was there. No item is inserted where there is no room.
fn by_key(alloc: Global, tree: &mut Numbers, call: Call, key: u64) -> Result<bool, OutOfMemory>
    requires { Ascending nat_cmp number_key tree.old.items }
    ensures { Ascending nat_cmp number_key tree.new.items }
{
    match call {
        Call::Find => Ok(tree.find(&key).is_some()),
        Call::Remove => Ok(tree.remove(alloc, &key)?.is_some()),
        _ if tree.len() < MOST => Ok(tree.insert(alloc, Number { key })?.is_some()),
        _ => Ok(false),
    }
}
