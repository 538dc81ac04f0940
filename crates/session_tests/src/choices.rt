//! Reports that depend on which thread is first.
use op_model::OutOfMemory;
use std::alloc::Global;

/// The rows of a report. A row that answers a query has the choices for its line, with bars between them: the answer on
/// what the replica had applied at the query's place, on one operation more, and so on.
#[derive(Clone, Copy)]
pub struct Choices<'a> {
    pub workers: usize,
    pub session: &'a str,
    pub rows: &'a str,
}

impl Choices<'_> {
    /// Whether the workers may write this report for the session. With 0 workers each first choice is wanted. Of two
    /// queries of one replica that go to one worker the later one is answered on no fewer operations.
    pub fn may_be(&self, alloc: Global, report: &str) -> Result<bool, OutOfMemory> {
        let asked = asked_replicas(alloc, self.session)?;
        match operations_left(alloc, self.workers, self.rows, report)? {
            Some(left) => Ok(left.len() == asked.len() && never_fall(&left, &asked, self.workers)),
            None => Ok(false),
        }
    }
}

/// The replica that each query of the session asks.
fn asked_replicas<'a>(alloc: Global, session: &'a str) -> Result<Vec<&'a str>, OutOfMemory> {
    let mut asked = Vec::new(alloc);
    for line in session.lines() {
        if let Some(replica) = asked_replica(line) {
            asked.push(replica)?;
        }
    }
    Ok(asked)
}

fn asked_replica(line: &str) -> Option<&str> {
    let (word, rest) = line.split_once(',')?;
    let (replica, _) = rest.split_once(',')?;
    if is_query(word) { Some(replica) } else { None }
}

fn is_query(word: &str) -> bool {
    word == "[\"find\"" || word == "[\"point\"" || word == "[\"offset\""
}

fn answers_a_query(row: &str) -> bool {
    row.starts_with("find ") || row.starts_with("point ") || row.starts_with("offset ")
}

/// For each query, how many of its choices stand after the one that its line is, if each line is one of its row.
fn operations_left(
    alloc: Global,
    workers: usize,
    rows: &str,
    report: &str,
) -> Result<Option<Vec<u64>>, OutOfMemory> {
    let mut counts = Vec::new(alloc);
    let mut lines = report.split('\n');
    for row in rows.split('\n') {
        let left = match lines.next() {
            Some(line) => choices_left(workers, row, line),
            None => None,
        };
        match left {
            Some(count) if answers_a_query(row) => counts.push(count)?,
            Some(_) => {}
            None => return Ok(None),
        }
    }
    Ok(if lines.next().is_none() {
        Some(counts)
    } else {
        None
    })
}

/// How many choices of the row stand after the one that is the line.
fn choices_left(workers: usize, row: &str, line: &str) -> Option<u64> {
    let mut left: Option<u64> = None;
    let mut is_first = true;
    for choice in row.split('|') {
        left = match left {
            Some(count) => Some(count.saturating_add(1)),
            None if choice == line && (is_first || workers > 0) => Some(0),
            None => None,
        };
        is_first = false;
    }
    left
}

/// Whether of two queries of one replica that go to one worker the later has no more operations left.
fn never_fall(left: &[u64], asked: &[&str], workers: usize) -> bool {
    for later in 0..left.len() {
        for earlier in 0..later {
            let is_one_reader = asked.get(earlier) == asked.get(later)
                && (later - earlier).checked_rem(workers) == Some(0);
            if is_one_reader && left[earlier] < left[later] {
                return false;
            }
        }
    }
    true
}
