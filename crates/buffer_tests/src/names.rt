//! Locators: their digits, as Debug writes them, their order, and how long they grow.
use crate::rows::assert_rows;
use locators::Locator;
use std::alloc::Global;
use std::cmp::Ordering;
use std::process::Abort;

// Where a further locator lies, after the least and the greatest one: between those of two indexes.
const BETWEEN: &[(usize, usize)] = &[(0, 1), (0, 2), (2, 1), (2, 4), (2, 5), (4, 5)];

// Equal digits in a row, written as those of a locator.
#[derive(Debug, Clone, Copy)]
struct Run {
    digit: u64,
    count: u64,
}

// The digits of all, in runs of equal ones.
const DIGITS: &[&[(u64, u64)]] = &[
    &[(0, 1)],
    &[(u64::MAX, 1)],
    &[(65535, 1)],
    &[(0, 1), (65535, 1)],
    &[(131070, 1)],
    &[(65535, 2)],
    &[(65535, 1), (0, 1), (65535, 1)],
    &[(131070, 1), (0, 1), (65535, 1)],
];

fn between_of(
    rt: &impl Abort,
    alloc: Global,
    all: &[Locator],
    (low, high): (usize, usize),
) -> Option<Locator> {
    match (all.get(low), all.get(high)) {
        (Some(low), Some(high)) => Some(Locator::between(alloc, low, high).expect(rt, "memory")),
        _ => None,
    }
}

fn add_all(rt: &impl Abort, alloc: Global, all: &mut Vec<Locator>) {
    all.push(Locator::least(alloc).expect(rt, "memory"))
        .expect(rt, "memory");
    all.push(Locator::greatest(alloc).expect(rt, "memory"))
        .expect(rt, "memory");
    for &ends in BETWEEN {
        if let Some(between) = between_of(rt, alloc, all.as_slice(), ends) {
            all.push(between).expect(rt, "memory");
        }
    }
}

// The least locator, the greatest one, and those of the table.
fn locators(rt: &impl Abort, alloc: Global) -> Vec<Locator> {
    let mut all = Vec::new(alloc);
    add_all(rt, alloc, &mut all);
    all
}

fn digits_of(rt: &impl Abort, alloc: Global, locator: &Locator) -> String {
    format!(in alloc; "{locator:?}").expect(rt, "memory")
}

fn add_runs(rt: &impl Abort, all: &mut Vec<Run>, runs: &[(u64, u64)]) {
    for &(digit, count) in runs {
        all.push(Run { digit, count }).expect(rt, "memory");
    }
}

fn written(rt: &impl Abort, alloc: Global, runs: &[(u64, u64)]) -> String {
    let mut all = Vec::new(alloc);
    add_runs(rt, &mut all, runs);
    format!(in alloc; "Locator {{ runs: Inline({all:?}) }}").expect(rt, "memory")
}

fn are_written(rt: &impl Abort, alloc: Global, digits: &str, runs: &[(u64, u64)]) -> bool {
    written(rt, alloc, runs).as_str() == digits
}

fn has_digits(rt: &impl Abort, alloc: Global, locator: &Locator, runs: &[(u64, u64)]) -> bool {
    are_written(rt, alloc, digits_of(rt, alloc, locator).as_str(), runs)
}

fn is_copied(rt: &impl Abort, alloc: Global, locator: &Locator) -> bool {
    locator.copy(alloc).expect(rt, "memory") == *locator
}

// Whether a locator has these digits, if they are given, and so has its copy.
fn is_of(rt: &impl Abort, alloc: Global, locator: &Locator, want: Option<&[(u64, u64)]>) -> bool {
    match want {
        Some(runs) => has_digits(rt, alloc, locator, runs) && is_copied(rt, alloc, locator),
        None => is_copied(rt, alloc, locator),
    }
}

// The same of the locator of an index.
fn is_at(
    rt: &impl Abort,
    alloc: Global,
    all: &[Locator],
    i: usize,
    want: Option<&[(u64, u64)]>,
) -> bool {
    match all.get(i) {
        Some(locator) => is_of(rt, alloc, locator, want),
        None => false,
    }
}

fn are_of(rt: &impl Abort, alloc: Global, all: &[Locator]) -> bool {
    let mut right = all.len() == DIGITS.len();
    for (i, &digits) in DIGITS.iter().enumerate() {
        right = is_at(rt, alloc, all, i, Some(digits)) && right;
    }
    right
}

// Indexes of locators that ascend: [0], [0, 65535], [65535], [65535, 0, 65535], the greatest.
const ASCENDING: &[usize] = &[0, 3, 2, 6, 1];

// Whether two values are in this order, and equal where it is that of equal ones.
fn is_ordered<T: Ord>(low: &T, high: &T, want: Ordering) -> bool {
    low.cmp(high) == want && low.partial_cmp(high) == Some(want) && (low == high) == want.is_eq()
}

fn is_ordered_at(all: &[Locator], low: usize, high: usize, want: Ordering) -> bool {
    match (all.get(low), all.get(high)) {
        (Some(low), Some(high)) => is_ordered(low, high, want),
        _ => false,
    }
}

fn are_ordered(all: &[Locator]) -> bool {
    let mut right = true;
    for (i, &low) in ASCENDING.iter().enumerate() {
        for (j, &high) in ASCENDING.iter().enumerate() {
            right = is_ordered_at(all, low, high, i.cmp(&j)) && right;
        }
    }
    right
}

fn are_right(rt: &impl Abort, alloc: Global, all: &[Locator]) -> bool {
    are_of(rt, alloc, all) && are_ordered(all)
}

fn are_between(rt: &impl Abort, alloc: Global) -> bool {
    are_right(rt, alloc, locators(rt, alloc).as_slice())
}

#[test]
fn gives_the_digits_between_in_their_order(rt: HostRuntime) {
    assert!(rt; are_between(&rt, rt.alloc()));
}

// Where each further text stands: after the last one put, before it, between the last two, or twice below and once above.
#[derive(Clone, Copy)]
enum Habit {
    After,
    Before,
    InTurn,
    Twice,
}

impl Habit {
    // Whether the next text stands before the one put in this turn.
    fn is_before(self, turn: u64) -> bool {
        match self {
            Habit::After => false,
            Habit::Before => true,
            Habit::InTurn => turn % 2 == 1,
            Habit::Twice => turn % 3 > 0,
        }
    }
}

// What a million texts one after another come to.
const MILLION: u64 = 65_535_000_000;

// The indexes of the locators between which the first name lies, how many names there are, and the digits of the last, where these
// lie in the value.
type Growth = (Habit, (usize, usize), u64, Option<&'static [(u64, u64)]>);

const GROWTH: &[Growth] = &[
    (Habit::After, (0, 1), 1, Some(&[(65535, 1)])),
    (Habit::After, (0, 1), 1_000_000, Some(&[(MILLION, 1)])),
    (Habit::Before, (0, 1), 1, Some(&[(65535, 1)])),
    (Habit::Before, (0, 1), 10, Some(&[(0, 9), (65535, 1)])),
    (Habit::Before, (0, 1), 1_000, Some(&[(0, 999), (65535, 1)])),
    (
        Habit::Before,
        (0, 1),
        70_001,
        Some(&[(0, 70_000), (65535, 1)]),
    ),
    (Habit::InTurn, (0, 1), 1, Some(&[(65535, 1)])),
    (Habit::InTurn, (0, 1), 2, Some(&[(0, 1), (65535, 1)])),
    (Habit::InTurn, (0, 1), 3, Some(&[(0, 1), (131070, 1)])),
    (Habit::InTurn, (0, 1), 100, Some(&[(0, 1), (65535, 50)])),
    (Habit::InTurn, (0, 1), 1_000, Some(&[(0, 1), (65535, 500)])),
    (
        Habit::InTurn,
        (0, 1),
        140_000,
        Some(&[(0, 1), (65535, 70_000)]),
    ),
    (
        Habit::After,
        (2, 4),
        1_000_000,
        Some(&[(65535, 1), (MILLION, 1)]),
    ),
    (Habit::Twice, (0, 1), 300, None),
];

fn is_between(all: &[Locator], (low, high): (usize, usize), name: &Locator) -> bool {
    match (all.get(low), all.get(high)) {
        (Some(low), Some(high)) => low < name && name < high,
        _ => false,
    }
}

// Puts a name in the place of its upper or lower neighbour. Returns whether it lies between the two.
fn put_between(
    all: &mut [Locator],
    (low, high): (usize, usize),
    is_upper: bool,
    name: Locator,
) -> bool {
    let right = is_between(all, (low, high), &name);
    if let Some(place) = all.get_mut(if is_upper { high } else { low }) {
        *place = name;
    }
    right
}

fn put_next(
    rt: &impl Abort,
    alloc: Global,
    all: &mut [Locator],
    ends: (usize, usize),
    is_upper: bool,
) -> bool {
    match between_of(rt, alloc, all, ends) {
        Some(name) => put_between(all, ends, is_upper, name),
        None => false,
    }
}

fn grows(rt: &impl Abort, alloc: Global, all: &mut [Locator], row: &Growth) -> bool {
    let &(habit, ends, count, want) = row;
    let mut right = true;
    for turn in 1..count.saturating_add(1) {
        let is_upper = turn < count && habit.is_before(turn);
        right = put_next(rt, alloc, all, ends, is_upper) && right;
    }
    is_at(rt, alloc, all, ends.0, want) && right
}

fn grows_to(rt: &impl Abort, alloc: Global, row: &Growth) -> bool {
    let mut all = locators(rt, alloc);
    grows(rt, alloc, all.as_mut_slice(), row)
}

#[test]
fn grows_as_documented(rt: HostRuntime) {
    assert_rows(&rt, rt.alloc(), GROWTH, grows_to);
}
