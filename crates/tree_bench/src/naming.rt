//! Locators at places that lines of two indexes name: 0 is the least, 1 the greatest, and each line adds one between
//! the two that it names.
use bench_reports::{Answer, Done, Report};
use locators::Locator;
use std::alloc::Global;
use std::io;

/// Reads the lines from the standard input, makes the locators, copies them and compares each with the two beside it.
pub fn works(report: &mut Report<'_>) -> io::Result<()> {
    let alloc = report.alloc();
    let pairs = read_pairs(report.rt)?;
    let mut all = Vec::with_capacity(alloc, pairs.len().saturating_add(2))?;
    report.begin();
    make_all(alloc, &mut all, &pairs)?;
    report.add("Between", all.len() as u64);
    report.add("Copy", copy_all(alloc, &all)?);
    report.add("Compare", count_less(&all, &pairs));
    Ok(())
}

// The pairs that the lines of the standard input name. A word that is no number stands for 0.
fn read_pairs(rt: &HostRuntime) -> io::Result<Vec<(usize, usize)>> {
    let text = io::read_to_string(rt.alloc(), rt.reader())?;
    let pairs = text.lines().filter_map(|line| line.split_once(' '));
    let numbers = pairs.map(|(low, high)| (low.parse().unwrap_or(0), high.parse().unwrap_or(0)));
    Ok(numbers.collect(rt.alloc())?)
}

// Adds a locator for each pair of two that are there already.
fn make_all(alloc: Global, all: &mut Vec<Locator>, pairs: &[(usize, usize)]) -> Done {
    all.push(Locator::least(alloc)?)?;
    all.push(Locator::greatest(alloc)?)?;
    for &(low, high) in pairs {
        if let (Some(low), Some(high)) = (all.get(low), all.get(high)) {
            let between = Locator::between(alloc, low, high)?;
            all.push(between)?;
        }
    }
    Ok(())
}

// Copies all locators: how many there are.
fn copy_all(alloc: Global, all: &[Locator]) -> Answer {
    let mut copies = Vec::with_capacity(alloc, all.len())?;
    for locator in all {
        copies.push(locator.copy(alloc)?)?;
    }
    Ok(copies.len() as u64)
}

// How many locators are above the one that they were put after, and how many below the one that they were put before.
fn count_less(all: &[Locator], pairs: &[(usize, usize)]) -> u64 {
    let mut less: u64 = 0;
    for (between, &(low, high)) in all.iter().skip(2).zip(pairs) {
        if let (Some(low), Some(high)) = (all.get(low), all.get(high)) {
            let both = u64::from(low < between) + u64::from(between < high);
            less = less.saturating_add(both);
        }
    }
    less
}
