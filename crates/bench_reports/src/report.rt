//! Lines about works, and numbers that look as if drawn by chance.
use std::alloc::Global;
use std::io;
use std::time::Instant;
use sum_tree::OutOfMemory;

/// The result of a work that makes nothing.
pub type Done = Result<(), OutOfMemory>;

/// The result of a work that answers with a number.
pub type Answer = Result<u64, OutOfMemory>;

/// Writes a line for each work: its name, its answer and, if times are asked for, its microseconds.
#[derive(Drop)]
pub struct Report<'a> {
    pub rt: &'a HostRuntime,
    timed: bool,
    start: Instant,
    /// The first error in writing, if there was one.
    pub written: io::Result<()>,
}

impl<'a> Report<'a> {
    /// A report for a command line: times are asked for if its last word is `timed`.
    ///
    /// # Errors
    ///
    /// Fails if the clock cannot be read.
    pub fn new(rt: &'a HostRuntime, words: &[String]) -> io::Result<Report<'a>> {
        Ok(Report {
            rt,
            timed: words.last().is_some_and(|word| word.as_str() == "timed"),
            start: Instant::now(rt)?,
            written: Ok(()),
        })
    }

    /// The allocator of the program.
    pub fn alloc(&self) -> Global {
        self.rt.alloc()
    }

    /// Begins a work.
    pub fn begin(&mut self) {
        self.start = Instant::now(self.rt).unwrap_or(self.start);
    }

    /// Ends a work with its answer, and begins the next one.
    pub fn add(&mut self, name: &str, answer: u64) {
        if self.written.is_ok() {
            self.written = self.write(name, answer);
        }
        self.begin();
    }

    /// Ends a work whose answer is the sum of what is answered to n numbers.
    pub fn sum<F: FnMut(u64) -> u64>(&mut self, name: &str, n: u64, answer: F)
        requires { F.IsAlwaysCallable answer }
    {
        self.add(name, sum_of(n, answer));
    }

    fn write(&self, name: &str, answer: u64) -> io::Result<()> {
        if !self.timed {
            return println!(self.rt; "{name} {answer}");
        }
        let micros = self.start.elapsed(self.rt)?.as_micros();
        println!(self.rt; "{name} {answer} {micros}")
    }
}

/// The sum of what is answered to n numbers that look as if drawn by chance.
pub fn sum_of<F: FnMut(u64) -> u64>(n: u64, mut answer: F) -> u64
    requires { F.IsAlwaysCallable answer }
{
    let (mut sum, mut x) = (0u64, 1u64);
    for _ in 0..n {
        x = step(x);
        sum = sum.wrapping_add(answer(x >> 20));
    }
    sum
}

/// The next of a row of numbers that look as if drawn by chance.
pub fn step(x: u64) -> u64 {
    x.wrapping_mul(6364136223846793005)
        .wrapping_add(1442695040888963407)
}
