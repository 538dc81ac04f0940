//! All places of a rope at which a needle stands.
ghost use Rattle.std.specs.Prelude.{◌≡◌, ◌↔◌, ◌<◌, length, Err, IfOk};
ghost use Rattle.snapshot_search.specs.declared.fault.FindFault.{FindFault};
ghost use Rattle.snapshot_search.specs.Starts.{starts};

use crate::between::find_between;
use crate::fault::FindFault;
use crate::needle::Needle;
use crate::parts::{cuts_of, find_in_parts};
use rope_chunks::Rope;
use std::alloc::Global;
use std::thread::Threads;

/// The most parts of one search.
const MOST_PARTS: u32 = 16;

/// All places of the rope's text, as byte offsets, at which the needle stands, ascending, where these overlap too: in
/// `baaaa` the needle `aa` stands at 1, 2 and 3.
///
/// `EmptyNeedle` is for the empty needle alone; the one other error is `OutOfMemory`. The time grows with the length of the text
/// and that of the needle, whatever they are; memory is taken for the places, and for one number for each byte of the needle.
pub fn find_all(alloc: Global, rope: &Rope, needle: &str) -> Result<Vec<u64>, FindFault>
    ensures starts { IfOk result (λ found. found.items ≡ starts rope.now needle.now) }
    ensures empty { (result ≡ Err FindFault.EmptyNeedle) ↔ (length needle.now ≡ 0) }
{
    if needle.is_empty() {
        return Err(FindFault::EmptyNeedle);
    }
    rope.known();
    let needle = Needle::new(alloc, needle.as_bytes())?;
    let found = find_between(alloc, rope, &needle, 0, rope.len())?;
    Ok(found)
}

/// The same places, found in so many parts of the text, which `rayon` shares out among threads: up to two for each processor.
/// `parts` is above 0, and more than 16 are as 16.
///
/// The errors are those of `find_all`: `EmptyNeedle` for the empty needle alone, `OutOfMemory` else. Beside what `find_all` takes,
/// memory is taken for the parts' ends, and for the places of each part until they are put together; the text is not copied.
pub fn find_all_par<R: Threads + Sync>(
    rt: &R,
    alloc: Global,
    rope: &Rope,
    needle: &str,
    parts: u32,
) -> Result<Vec<u64>, FindFault>
    requires { 0 < parts }
    ensures starts { IfOk result (λ found. found.items ≡ starts rope.now needle.now) }
    ensures empty { (result ≡ Err FindFault.EmptyNeedle) ↔ (length needle.now ≡ 0) }
{
    if needle.is_empty() {
        return Err(FindFault::EmptyNeedle);
    }
    let needle = Needle::new(alloc, needle.as_bytes())?;
    let cuts = cuts_of(alloc, rope, parts.min(MOST_PARTS) as u64)?;
    let found = find_in_parts(rt, alloc, rope, &needle, &cuts)?;
    Ok(found)
}
