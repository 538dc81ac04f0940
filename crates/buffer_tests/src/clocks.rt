//! Clocks, stamps and versions.
use crate::operations::{Stamp, stamp, version};
use lamport_clock::{Clock, ClockEnd, Lamport, Version, is_later};
use std::alloc::Global;
use std::process::Abort;

// A clock observes a stamp, or ticks with an answer.
#[derive(Clone, Copy)]
enum Step {
    Observe(Stamp),
    Tick(Result<Lamport, ClockEnd>),
}

const SECOND: Lamport = Lamport {
    value: 2,
    replica: 7,
};

// What the clock of replica 7 does, and its value after it.
const STEPS: &[(Step, u32)] = &[
    (Step::Observe((1, 0)), 2),
    (Step::Tick(Ok(SECOND)), 3),
    (Step::Observe((9, 2)), 10),
    (Step::Observe((4_294_967_294, 2)), 4_294_967_295),
    (Step::Tick(Err(ClockEnd)), 4_294_967_295),
    (Step::Observe((1, 1)), 4_294_967_295),
];

// Whether the clock answers as it should, and its value.
fn step_on(clock: &mut Clock, step: Step) -> (bool, u32) {
    let right = match step {
        Step::Observe(at) => {
            clock.observe(stamp(at));
            true
        }
        Step::Tick(want) => clock.tick() == want,
    };
    (right, clock.value())
}

// Two stamps, and whether the first is the later one.
const ORDERS: &[(Stamp, Stamp, bool)] = &[
    ((3, 1), (2, 9), true),
    ((2, 9), (3, 1), false),
    ((3, 1), (3, 0), true),
    ((3, 1), (3, 1), false),
];

#[test]
fn clocks_pass_what_they_observe_until_their_end(rt: HostRuntime) {
    let mut clock = Clock::new(7);
    assert!(rt; clock.value() == 1);
    for &(step, value) in STEPS {
        assert!(rt; step_on(&mut clock, step) == (true, value), "to {value}");
    }
    for &(a, b, want) in ORDERS {
        assert!(rt; is_later(stamp(a), stamp(b)) == want, "{a:?} and {b:?}");
    }
}

// What a version and another one have seen, the first that the version misses of the other, and the entries of their join;
// stamps, and whether the version sees each before and after it joins the other.
struct Join {
    seen: &'static [Stamp],
    other: &'static [Stamp],
    missing: Option<(u16, u32)>,
    joined: &'static [(u16, u32)],
    sights: &'static [(Stamp, bool, bool)],
}

// Two versions that have replicas apart and in common, and their join.
const LEFT: &[Stamp] = &[(4, 1), (9, 3), (2, 5), (6, 9)];

const RIGHT: &[Stamp] = &[(7, 0), (5, 1), (1, 3), (3, 4), (8, 12)];

const BOTH: &[Stamp] = &[(7, 0), (5, 1), (9, 3), (3, 4), (2, 5), (6, 9), (8, 12)];

const JOINED: &[(u16, u32)] = &[(0, 7), (1, 5), (3, 9), (4, 3), (5, 2), (9, 6), (12, 8)];

const JOINS: &[Join] = &[
    Join {
        seen: LEFT,
        other: RIGHT,
        missing: Some((0, 7)),
        joined: JOINED,
        sights: &[((4, 1), true, true), ((5, 1), false, true)],
    },
    Join {
        seen: RIGHT,
        other: LEFT,
        missing: Some((3, 9)),
        joined: JOINED,
        sights: &[((8, 12), true, true), ((9, 12), false, false)],
    },
    Join {
        seen: RIGHT,
        other: BOTH,
        missing: Some((3, 9)),
        joined: JOINED,
        sights: &[((2, 5), false, true)],
    },
    Join {
        seen: BOTH,
        other: LEFT,
        missing: None,
        joined: JOINED,
        sights: &[],
    },
    Join {
        seen: &[(2, 1)],
        other: &[(3, 1), (1, 2)],
        missing: Some((1, 3)),
        joined: &[(1, 3), (2, 1)],
        sights: &[((1, 1), true, true), ((3, 1), false, true)],
    },
    Join {
        seen: FIVE,
        other: &[],
        missing: None,
        joined: ENTRIES,
        sights: &[((8, 9), true, true), ((1, 2), false, false)],
    },
];

// Stamps of five replicas, and what the version of these has by index and by replica.
const FIVE: &[Stamp] = &[(2, 1), (1, 1), (7, 9), (5, 0), (4, 5), (1, 1023), (8, 9)];

const ENTRIES: &[(u16, u32)] = &[(0, 5), (1, 2), (5, 4), (9, 8), (1023, 1)];

const BY_INDEX: &[(u64, Option<(u16, u32)>)] = &[
    (0, Some((0, 5))),
    (4, Some((1023, 1))),
    (5, None),
    (u64::MAX, None),
];

fn has_sights(version: &Version, join: &Join, is_joined: bool) -> bool {
    let mut right = true;
    for &(at, before, after) in join.sights {
        let want = if is_joined { after } else { before };
        right = right && version.sees(stamp(at)) == want;
    }
    right
}

fn misses(version: &Version, other: &Version, missing: Option<(u16, u32)>) -> bool {
    version.first_missing(other) == missing && version.sees_all(other) == missing.is_none()
}

fn is_joined(version: &Version, other: &Version, join: &Join) -> bool {
    misses(version, other, None)
        && has_sights(version, join, true)
        && version.as_slice() == join.joined
}

fn come_together(rt: &impl Abort, version: &mut Version, other: &Version, join: &Join) -> bool {
    let before = misses(version, other, join.missing) && has_sights(version, join, false);
    version.join(other).expect(rt, "memory");
    before && is_joined(version, other, join)
}

fn joins(rt: &impl Abort, alloc: Global, join: &Join) -> bool {
    let other = version(alloc, join.other).expect(rt, "memory");
    come_together(
        rt,
        &mut version(alloc, join.seen).expect(rt, "memory"),
        &other,
        join,
    )
}

fn has_entries(version: &Version) -> bool {
    let mut right = version.len() == 5;
    for &(i, want) in BY_INDEX {
        right = right && version.entry(i) == want;
    }
    right
}

fn is_of_five(version: &Version) -> bool {
    let values = (version.get(1023), version.get(9), version.get(2));
    version.as_slice() == ENTRIES && values == (1, 8, 0) && has_entries(version)
}

fn are_of_five(rt: &impl Abort, alloc: Global) -> bool {
    let version = version(alloc, FIVE).expect(rt, "memory");
    is_of_five(&version) && is_of_five(&version.copy(alloc).expect(rt, "memory"))
}

// Entries in the order in which they come, and those of the version of them; `None` where they do not ascend.
type Listed = (&'static [(u16, u32)], &'static [(u16, u32)], bool);

const LISTED: &[Listed] = &[
    (&[], &[], true),
    (ENTRIES, ENTRIES, true),
    (
        &[(0, 1), (65_535, 4_294_967_295)],
        &[(0, 1), (65_535, 4_294_967_295)],
        true,
    ),
    (&[(3, 1), (3, 1)], &[(3, 1)], false),
    (&[(3, 1), (3, 2)], &[(3, 2)], false),
    (&[(9, 8), (1, 2)], &[(1, 2), (9, 8)], false),
    (&[(1, 2), (4, 0), (9, 8)], &[(1, 2), (9, 8)], false),
    (&[(0, 0)], &[], false),
];

// Whether the version of entries in any order has these, and the version of ascending ones too, where there is one.
fn is_listed(rt: &impl Abort, alloc: Global, (entries, want, ascend): Listed) -> bool {
    let sorted = Version::from_entries(alloc, entries).expect(rt, "memory");
    let right = match Version::from_ascending(alloc, entries).expect(rt, "memory") {
        Some(made) => ascend && made.as_slice() == want,
        None => !ascend,
    };
    right && sorted.as_slice() == want
}

fn are_in_words(rt: &impl Abort, alloc: Global) -> bool {
    let words = format!(in alloc; "{SECOND}: {ClockEnd}").expect(rt, "memory");
    words.as_str() == "2.7: the clock stands at its end"
}

#[test]
fn versions_see_and_join(rt: HostRuntime) {
    for join in JOINS {
        assert!(rt;
            joins(&rt, rt.alloc(), join),
            "{:?} and {:?}",
            join.seen,
            join.other
        );
    }
    for &row in LISTED {
        assert!(rt; is_listed(&rt, rt.alloc(), row), "{:?}", row.0);
    }
    assert!(rt; are_of_five(&rt, rt.alloc()) && are_in_words(&rt, rt.alloc()));
}
