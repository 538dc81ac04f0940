//! Searches for needles, against one that looks at each place by itself.
use crate::chance::step;
use crate::parts::rope_of;
use rope_chunks::Rope;
use snapshot_search::{FindFault, find_all, find_all_par};
use std::alloc::Global;
use std::thread::Threads;
use sum_tree::OutOfMemory;

const PARTS: [u32; 6] = [1, 2, 3, 16, 1000, u32::MAX];

// Lengths of needles: around words, chunks and what is compared whole.
const LENGTHS: [usize; 18] = [
    1, 2, 3, 4, 7, 8, 15, 16, 31, 32, 33, 64, 127, 128, 129, 200, 255, 300,
];

// The places of a needle, each looked at by itself.
fn plain(alloc: Global, text: &str, needle: &str) -> Result<Vec<u64>, OutOfMemory> {
    let text = text.as_bytes();
    let mut places = Vec::new(alloc);
    for i in 0..text.len() {
        if text[i..].starts_with(needle.as_bytes()) {
            places.push(i as u64)?;
        }
    }
    Ok(places)
}

// Whether a rope gives these places, by one thread and in parts.
fn gives<R: Threads + Sync>(
    rt: &R,
    alloc: Global,
    rope: &Rope,
    needle: &str,
    places: &[u64],
) -> Result<bool, FindFault> {
    let mut alike = find_all(alloc, rope, needle)?.as_slice() == places;
    for parts in PARTS {
        if parts > 0 {
            let found = find_all_par(rt, alloc, rope, needle, parts)?;
            alike = alike & (found.as_slice() == places);
        }
    }
    Ok(alike)
}

// Whether a rope of the text gives the places of the plain search.
fn alike<R: Threads + Sync>(
    rt: &R,
    alloc: Global,
    text: &str,
    needle: &str,
) -> Result<bool, FindFault> {
    let rope = rope_of(alloc, text)?;
    let places = plain(alloc, text, needle)?;
    gives(rt, alloc, &rope, needle, &places)
}

// A text or a needle: its length, the few letters that it repeats in turn, and a text after them.
#[derive(Clone, Copy, Debug)]
struct Turns {
    letters: &'static str,
    len: usize,
    tail: &'static str,
}

fn repeat(letters: &'static str, len: usize) -> Turns {
    Turns {
        letters,
        len,
        tail: "",
    }
}

// A run of one letter, and a text after it.
fn after_run(len: usize, tail: &'static str) -> Turns {
    Turns {
        letters: "b",
        len,
        tail,
    }
}

fn text_of(alloc: Global, turns: Turns) -> Result<String, OutOfMemory> {
    let letters = turns.letters.as_bytes();
    let mut text = String::new(alloc);
    for i in 0..turns.len {
        if letters.len() > 0 {
            text.push((letters[i % letters.len()] % 128) as char)?;
        }
    }
    text.push_str(turns.tail)?;
    Ok(text)
}

// Whether what is made so is found in what is made so.
fn is_found<R: Threads + Sync>(
    rt: &R,
    alloc: Global,
    text: Turns,
    needle: Turns,
) -> Result<bool, FindFault> {
    let text = text_of(alloc, text)?;
    let needle = text_of(alloc, needle)?;
    alike(rt, alloc, text.as_str(), needle.as_str())
}

const LEADS: &[usize] = &[0, 1, 124, 125, 126, 127, 128, 129, 254, 255, 256, 65_530];

const AT_SEAMS: &[&str] = &["a", "aa", "aaaa", "aaaaa", "ba", "ab", "aab", "baab", "c"];

#[test]
fn matches_at_seams_are_found(rt: HostRuntime) -> Result<(), FindFault> {
    for &lead in LEADS {
        for &needle in AT_SEAMS {
            let found = is_found(
                &rt,
                rt.alloc(),
                after_run(lead, "aaaabaab"),
                after_run(0, needle),
            )?;
            assert!(rt; found, "{needle} after {lead}");
        }
    }
    Ok(())
}

// Letters in turn, of which a needle has fewer than a text, or more.
const LETTERS: &[&str] = &["a", "ab", "aab", "abaab"];

const OVERLAPS: &[usize] = &[1, 2, 3, 5, 16, 40, 300, 2999, 3000, 3001];

#[test]
fn matches_that_overlap_are_found(rt: HostRuntime) -> Result<(), FindFault> {
    for &letters in LETTERS {
        for &len in OVERLAPS {
            let found = is_found(&rt, rt.alloc(), repeat(letters, 3000), repeat(letters, len))?;
            assert!(rt; found, "{len} of {letters}");
        }
    }
    Ok(())
}

const SHORT: &[&str] = &["", "é", "😀", "aaa"];

const IN_SHORT: &[&str] = &["a", "é", "😀", "aa", "aaaa"];

#[test]
fn needles_are_found_in_short_texts(rt: HostRuntime) -> Result<(), FindFault> {
    for &text in SHORT {
        for &needle in IN_SHORT {
            assert!(rt; alike(&rt, rt.alloc(), text, needle)?, "{needle} in {text}");
        }
    }
    Ok(())
}

// Characters of each length, fifty times each.
fn characters(alloc: Global) -> Result<String, OutOfMemory> {
    let mut text = String::new(alloc);
    for piece in ["é", "😀", "€", "a", "éé", "😀😀", "\r\n", "€é"] {
        for _ in 0..50 {
            text.push_str(piece)?;
            text.push_str("é€😀")?;
        }
    }
    Ok(text)
}

const OF_SEVERAL_BYTES: &[&str] = &["é", "€", "😀", "€😀", "😀é", "é€😀é", "a", "\n", "ß", "😀😀😀"];

fn in_characters<R: Threads + Sync>(
    rt: &R,
    alloc: Global,
    needle: &str,
) -> Result<bool, FindFault> {
    alike(rt, alloc, characters(alloc)?.as_str(), needle)
}

#[test]
fn characters_of_several_bytes_are_found(rt: HostRuntime) -> Result<(), FindFault> {
    for &needle in OF_SEVERAL_BYTES {
        assert!(rt; in_characters(&rt, rt.alloc(), needle)?, "{needle}");
    }
    Ok(())
}

// Small letters, as if drawn by chance, in which the needle stands at the given places where there is room.
fn plant(alloc: Global, needle: &str, places: &[usize], len: usize) -> Result<String, OutOfMemory> {
    let mut text = String::new(alloc);
    let mut x = 7u64;
    for place in places {
        for _ in text.len()..*place {
            x = step(x);
            text.push((b'a' + ((x >> 40) % 26) as u8) as char)?;
        }
        text.push_str(needle)?;
    }
    for _ in text.len()..len {
        text.push('z')?;
    }
    Ok(text)
}

// Whether a needle is found where it stands at these places of a text.
fn is_found_planted<R: Threads + Sync>(
    rt: &R,
    alloc: Global,
    needle: Turns,
    places: &[usize],
    len: usize,
) -> Result<bool, FindFault> {
    let needle = text_of(alloc, needle)?;
    let text = plant(alloc, needle.as_str(), places, len)?;
    alike(rt, alloc, text.as_str(), needle.as_str())
}

const PLANTED: &[&str] = &["abcdefg", "ab", "a", "aaaaaaaaaaab"];

#[test]
fn needles_of_each_length_are_found(rt: HostRuntime) -> Result<(), FindFault> {
    for len in LENGTHS {
        for &letters in PLANTED {
            let places = [128, 640, 1000, 1500_usize.saturating_sub(len / 2), 2900];
            let found = is_found_planted(&rt, rt.alloc(), repeat(letters, len), &places, 3000)?;
            assert!(rt; found, "{len} of {letters}");
        }
    }
    Ok(())
}

#[test]
fn needles_across_windows_are_found(rt: HostRuntime) -> Result<(), FindFault> {
    for len in [1, 2, 33, 129, 300] {
        let middle = 65_536_usize.saturating_sub(len / 2);
        let places = [middle, 69_999, 131_072_usize.saturating_sub(len), 131_072];
        let needle = repeat("aaaaaaaaaaab", len);
        let found = is_found_planted(&rt, rt.alloc(), needle, &places, 140_000)?;
        assert!(rt; found, "{len}");
    }
    Ok(())
}

// Worked rows: the places of a needle in 127 letters and four others.
const ACROSS: &[(&str, &[u64])] = &[("aa", &[127, 128, 129]), ("c", &[])];

// The rope of 131 bytes, over two chunks.
fn across(alloc: Global) -> Result<Rope, OutOfMemory> {
    let text = text_of(alloc, after_run(127, "aaaa"))?;
    rope_of(alloc, text.as_str())
}

fn gives_across<R: Threads + Sync>(
    rt: &R,
    alloc: Global,
    needle: &str,
    places: &[u64],
) -> Result<bool, FindFault> {
    let rope = across(alloc)?;
    Ok(gives(rt, alloc, &rope, needle, places)? & (rope.len() == 131))
}

// Whether no search is made for a needle without bytes.
fn refuses_no_needle<R: Threads + Sync>(
    rt: &R,
    alloc: Global,
    parts: u32,
) -> Result<bool, OutOfMemory> {
    let rope = across(alloc)?;
    let one = find_all(alloc, &rope, "").err() == Some(FindFault::EmptyNeedle);
    if parts == 0 {
        return Ok(one);
    }
    let found = find_all_par(rt, alloc, &rope, "", parts);
    Ok(one & (found.err() == Some(FindFault::EmptyNeedle)))
}

#[test]
fn matches_across_a_chunk_are_found(rt: HostRuntime) -> Result<(), FindFault> {
    for &(needle, places) in ACROSS {
        assert!(rt; gives_across(&rt, rt.alloc(), needle, places)?, "{needle}");
    }
    for parts in PARTS {
        assert!(rt;
            refuses_no_needle(&rt, rt.alloc(), parts)?,
            "no needle, in {parts} parts"
        );
    }
    Ok(())
}

const FAULTS: &[(FindFault, &str)] = &[
    (FindFault::EmptyNeedle, "the needle is empty"),
    (FindFault::OutOfMemory, "out of memory"),
];

// Whether a fault is said in these words.
fn is_said(alloc: Global, fault: &FindFault, words: &str) -> Result<bool, OutOfMemory> {
    Ok(format!(in alloc; "{fault}")?.as_str() == words)
}

#[test]
fn faults_are_said(rt: HostRuntime) -> Result<(), OutOfMemory> {
    for (fault, words) in FAULTS {
        assert!(rt; is_said(rt.alloc(), fault, words)?, "{words}");
    }
    Ok(())
}
