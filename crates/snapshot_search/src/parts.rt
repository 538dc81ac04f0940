//! Dividing a text for several threads, and what they find put together.
ghost use Rattle.std.specs.Prelude.{◌≡◌, ◌+◌, ◌-◌, ◌<◌, ◌≤◌, ℕ, Result, length, slice_index, slice_index_or, IfOk};
ghost use Rattle.std.specs.declared.vec.Vec.{Vec};
ghost use Rattle.std.specs.declared.alloc.Global.{Global};
ghost use Rattle.std.specs.declared.alloc.AllocError.{AllocError as OutOfMemory};
ghost use Rattle.std.specs.Str.{IsCharBoundary};
ghost use Rattle.snapshot_search.specs.Starts.{starts, starts_between};
ghost use Rattle.snapshot_search.specs.Parts.{AreCuts};

use crate::OutOfMemory;
use crate::between::find_between;
use crate::needle::Needle;
use rayon::prelude::*;
use rope_chunks::Rope;
use std::alloc::Global;
use std::thread::Threads;

/// The positions at which a rope's text is cut into so many parts of about the same length, with both its ends.
pub(crate) fn cuts_of(alloc: Global, rope: &Rope, parts: u64) -> Result<Vec<u64>, OutOfMemory>
    requires { 0 < parts }
    ensures { IfOk result (λ cuts. AreCuts rope.now cuts.items (length rope.now)) }
{
    rope.known();
    let len = rope.len();
    let step = len / parts;
    let mut cuts = Vec::new(alloc);
    let mut last = 0;
    let mut target = 0;
    cuts.push(last)?;
    for _ in 1..parts {
        target = len.min(target + step);
        last = boundary_between(rope, last, target);
        cuts.push(last)?;
    }
    cuts.push(len)?;
    Ok(cuts)
}

// The last position of a text up to `to`, where `from` is one.
fn boundary_between(rope: &Rope, from: u64, to: u64) -> u64
    requires from { IsCharBoundary rope.now from }
    requires order { from ≤ to }
    ensures order { (from ≤ result) × (result ≤ to) }
    ensures boundary { IsCharBoundary rope.now result }
{
    let mut at = to;
    while from < at {
        if rope.is_char_boundary(at) {
            return at;
        }
        at -= 1;
    }
    from
}

/// All places at which the needle stands, the parts of the text shared out among threads.
pub(crate) fn find_in_parts<R: Threads + Sync>(
    rt: &R,
    alloc: Global,
    rope: &Rope,
    needle: &Needle<'_>,
    cuts: &[u64],
) -> Result<Vec<u64>, OutOfMemory>
    requires some { 0 < length needle.now }
    requires cuts { AreCuts rope.now cuts.now (length rope.now) }
    ensures { IfOk result (λ found. found.items ≡ starts rope.now needle.now) }
{
    let found = find_each(rt, alloc, rope, needle, cuts)?;
    let mut all = Vec::new(alloc);
    for j in 0..found.len() {
        match &found[j] {
            Ok(part) => all.extend_from_slice(part.as_slice())?,
            Err(_) => return Err(OutOfMemory),
        }
    }
    Ok(all)
}

// The places in each part.
fn find_each<R: Threads + Sync>(
    rt: &R,
    alloc: Global,
    rope: &Rope,
    needle: &Needle<'_>,
    cuts: &[u64],
) -> Result<Vec<Result<Vec<u64>, OutOfMemory>>, OutOfMemory>
    requires { AreCuts rope.now cuts.now (length rope.now) }
    ensures len { IfOk result (λ found. length found.items + 1 ≡ length cuts.now) }
    ensures each { IfOk result (λ found. (j : ℕ) (d : Result (Vec ℕ Global) OutOfMemory)
        → j + 1 < length cuts.now
        → IfOk (slice_index_or found.items j d)
        (λ part. part.items ≡ starts_between rope.now needle.now (slice_index cuts.now j)
        (slice_index cuts.now (j + 1)))) }
{
    (0..cuts.len() - 1)
        .into_par_iter()
        .with_min_len(1)
        .map(
            |j: usize| -> Result<Vec<u64>, OutOfMemory>
                requires { (j + 1 < length cuts.now) × AreCuts rope.now cuts.now (length rope.now) }
                ensures { IfOk result (λ part. part.items
                    ≡ starts_between rope.entry.now needle.entry.now (slice_index cuts.entry.now j)
                    (slice_index cuts.entry.now (j + 1))) }
            { find_part(alloc, rope, needle, cuts, j) },
        )
        .collect(rt, alloc)
}

// The places in one part. The text is read past its end as far as a match goes that begins in it.
fn find_part(
    alloc: Global,
    rope: &Rope,
    needle: &Needle<'_>,
    cuts: &[u64],
    j: usize,
) -> Result<Vec<u64>, OutOfMemory>
    requires part { j + 1 < length cuts.now }
    requires cuts { AreCuts rope.now cuts.now (length rope.now) }
    ensures { IfOk result (λ part. part.items
        ≡ starts_between rope.now needle.now (slice_index cuts.now j)
        (slice_index cuts.now (j + 1))) }
{
    find_between(alloc, rope, needle, cuts[j], cuts[j + 1])
}
