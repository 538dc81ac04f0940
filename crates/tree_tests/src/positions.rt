//! Every offset, every point and every row of texts, against counts over the plain text.
use crate::parts::{has, rope_of};
use crate::ropes::{Ask, Kind, Spot, answer, append_to};
use rope_chunks::Rope;
use std::alloc::Global;
use sum_tree::OutOfMemory;
use text_dims::Place;
use tree_cursor::Bias;

// Some 300 bytes: characters of 1 to 4 bytes, CRs, empty rows, and a longest row in the middle.
const MIXED: &str =
    "The first row is plain.\r\n\né😀€z: naïve čeština, 日本語\nThe longest row, in the middle: 0123456789 abcdefghijklmnop ßßß €€€ 😀😀\n\n\r\nshort\ntwo rows of equal length: é\ntwo rows of equal length: €\r\n😀😀😀😀😀😀😀😀😀\n\u{7f}\u{80}\u{7ff}\u{800}\u{ffff}\u{10000}\u{10ffff}\nno LF at the end é";

const TEXTS: &[&str] = &[
    "",
    "a",
    "😀",
    "\n",
    "a\nbc",
    "é😀\n",
    "\n\n\n",
    "ab\r\ncd\n\nxyz\npqr",
    "a\nbcd\nef\nghi\n",
    "€uro\nß\r",
    "a\n😀é€z\nbcd\nwxyz",
    MIXED,
];

// The place past a character.
fn past(place: Place, character: char) -> Place {
    let bytes = character.len_utf8() as u64;
    let units = character.len_utf16() as u64;
    let mut next = place;
    next.offset = next.offset.wrapping_add(bytes);
    next.utf16 = next.utf16.wrapping_add(units);
    next.column = next.column.wrapping_add(bytes);
    next.column_utf16 = next.column_utf16.wrapping_add(units);
    if character == '\n' {
        next.row = next.row.wrapping_add(1);
        next.column = 0;
        next.column_utf16 = 0;
    }
    next
}

// The places of a text, counted character by character.
fn places_of(alloc: Global, text: &str) -> Result<Vec<Place>, OutOfMemory> {
    let mut places = Vec::new(alloc);
    let mut place = Place::default();
    for character in text.chars() {
        places.push(place)?;
        place = past(place, character);
    }
    places.push(place)?;
    Ok(places)
}

// The rope of a text, from pieces of several sizes: some of its chunks are short.
fn from_pieces(alloc: Global, text: &str) -> Result<Rope, OutOfMemory> {
    let mut rope = Rope::new(alloc)?;
    let mut rest = text;
    for size in [70, 70, 1, 100, 40, 3, 90, 1000] {
        let (piece, after) = rest.split_at(rest.floor_char_boundary(size));
        append_to(alloc, &mut rope, rope_of(alloc, piece)?)?;
        rest = after;
    }
    Ok(rope)
}

// The place that is named so in one kind, in another kind.
fn counted(places: &[Place], from: Kind, to: Kind, at: Spot) -> Option<Spot> {
    for place in places {
        if from.spot_of(place) == at {
            return Some(to.spot_of(place));
        }
    }
    None
}

// Where a position is clipped to, counted over the places of its row.
fn clipped(places: &[Place], kind: Kind, at: Spot, bias: Bias) -> Option<Spot> {
    let mut before = None;
    let mut last = None;
    for place in places {
        let spot = kind.spot_of(place);
        if spot.0 == at.0 && spot.1 >= at.1 && (bias == Bias::Right || spot.1 == at.1) {
            return Some(spot);
        }
        if spot.0 == at.0 && spot.1 <= at.1 {
            before = Some(spot);
        }
        last = Some(spot);
    }
    before.or(last)
}

// How long a row is.
fn counted_row(places: &[Place], row: u64) -> Option<Spot> {
    let mut len = None;
    for place in places {
        if place.row == row {
            len = Some((0, place.column));
        }
    }
    len
}

// The first row with the most characters.
fn longest_row(text: &str) -> Spot {
    let mut row = 0u64;
    let mut longest = (0, 0);
    for line in text.split('\n') {
        let chars = line.chars().count() as u64;
        if chars > longest.1 {
            longest = (row, chars);
        }
        row = row.wrapping_add(1);
    }
    longest
}

// What should be answered.
fn expected(text: &str, places: &[Place], ask: Ask, at: Spot) -> Option<Spot> {
    match ask {
        Ask::Convert(from, to) => counted(places, from, to, at),
        Ask::ClipOffset(bias) => clipped(places, Kind::Offset, at, bias),
        Ask::ClipPoint(bias) => clipped(places, Kind::Point, at, bias),
        Ask::RowLen => counted_row(places, at.0),
        Ask::Len => Some((0, text.len() as u64)),
        Ask::End => clipped(places, Kind::Point, (u64::MAX, 0), Bias::Right),
        Ask::LongestRow => Some(longest_row(text)),
    }
}

// What is asked, at which rows and columns. Offsets and units go past the end of each text.
const ASKS: &[(Ask, u64, u64)] = &[
    (Ask::Convert(Kind::Offset, Kind::Point), 1, 380),
    (Ask::Convert(Kind::Offset, Kind::Units), 1, 380),
    (Ask::Convert(Kind::Units, Kind::Offset), 1, 380),
    (Ask::ClipOffset(Bias::Left), 1, 380),
    (Ask::ClipOffset(Bias::Right), 1, 380),
    (Ask::Convert(Kind::Point, Kind::Offset), 15, 90),
    (Ask::Convert(Kind::Point, Kind::PointUnits), 15, 90),
    (Ask::Convert(Kind::PointUnits, Kind::Point), 15, 90),
    (Ask::ClipPoint(Bias::Left), 15, 90),
    (Ask::ClipPoint(Bias::Right), 15, 90),
    (Ask::RowLen, 15, 1),
    (Ask::Len, 1, 1),
    (Ask::End, 1, 1),
    (Ask::LongestRow, 1, 1),
];

// The first spot at which a rope answers something else than was counted.
fn wrong_spot(
    rope: &Rope,
    text: &str,
    places: &[Place],
    (ask, rows, columns): (Ask, u64, u64),
) -> Option<Spot> {
    for row in 0..rows {
        for column in 0..columns {
            let at = (row, column);
            if answer(rope, ask, at) != expected(text, places, ask, at) {
                return Some(at);
            }
        }
    }
    None
}

// What a rope answers wrong of its text, and where.
fn wrong(alloc: Global, rope: &Rope, text: &str) -> Result<Option<(Ask, Spot)>, OutOfMemory> {
    let places = places_of(alloc, text)?;
    for asked in ASKS {
        if let Some(at) = wrong_spot(rope, text, &places, *asked) {
            return Ok(Some((asked.0, at)));
        }
    }
    Ok(None)
}

// Whether the rope has its text, and what it answers wrong of it.
type Judged = (bool, Option<(Ask, Spot)>);

fn judge(alloc: Global, rope: &Rope, text: &str) -> Result<Judged, OutOfMemory> {
    let right = has(alloc, rope, text)? & rope.row_len(u64::MAX).is_none();
    Ok((right, wrong(alloc, rope, text)?))
}

fn judge_whole(alloc: Global, text: &str) -> Result<Judged, OutOfMemory> {
    let rope = rope_of(alloc, text)?;
    judge(alloc, &rope, text)
}

fn judge_pieces(alloc: Global, text: &str) -> Result<Judged, OutOfMemory> {
    let rope = from_pieces(alloc, text)?;
    judge(alloc, &rope, text)
}

#[test]
fn ropes_answer_as_counted(rt: HostRuntime) -> Result<(), OutOfMemory> {
    for &text in TEXTS {
        let (right, wrong) = judge_whole(rt.alloc(), text)?;
        assert!(rt; right & wrong.is_none(), "{wrong:?} of {text:?}");
        let (right, wrong) = judge_pieces(rt.alloc(), text)?;
        assert!(rt; right & wrong.is_none(), "{wrong:?} of {text:?}, in pieces");
    }
    Ok(())
}
