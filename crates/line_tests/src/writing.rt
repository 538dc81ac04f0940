//! The further lines of reports, as they are written.
use lamport_clock::Lamport;
use op_model::{EditFault, Text};
use session_more::{
    DisplayAnswer, ExcerptAnswer, FoldAnswer, FoldRefusal, MeditAnswer, MoreReport, NumberAnswer,
    NumberAnswers, OutOfMemory, PartAnswer, SelectAnswer, SelectedAnswer, ShareAnswer,
    SplitRefusal, TextRanges, UnfoldAnswer, write_line,
};
use std::alloc::Global;

// What a line prints.
#[derive(Clone, Copy)]
enum Row {
    Select(SelectAnswer),
    Share(ShareAnswer),
    Ranges(&'static [(u64, u64)]),
    NoRanges,
    Unknown(u64),
    Fold(FoldAnswer),
    Unfold(UnfoldAnswer),
    Folded(&'static str),
    Display(DisplayAnswer),
    Excerpt(ExcerptAnswer),
    Multi(&'static str),
    Numbers(&'static [NumberAnswer]),
    Split(SplitRefusal),
}

const STAMP: Lamport = Lamport {
    value: 3,
    replica: 2,
};

const NUMBERS: &[NumberAnswer] = &[
    NumberAnswer {
        number: 1,
        answer: PartAnswer::Made(STAMP),
    },
    NumberAnswer {
        number: 2,
        answer: PartAnswer::Nothing,
    },
    NumberAnswer {
        number: 3,
        answer: PartAnswer::Refused(EditFault::ClockEnd),
    },
];

const ROWS: &[(Row, &str)] = &[
    (Row::Select(SelectAnswer::Made(STAMP)), "select \"m\": 3.2"),
    (
        Row::Share(ShareAnswer::Old(STAMP)),
        "share \"m\" to 2: old 3.2",
    ),
    (
        Row::Ranges(&[(2, 2), (0, 3)]),
        "selected 1 at 2: 2..2, 0..3",
    ),
    (Row::Ranges(&[]), "selected 1 at 2: empty"),
    (Row::NoRanges, "selected 1 at 2: none"),
    (Row::Unknown(1), "selected 1 at 2: unknown 1"),
    (Row::Fold(FoldAnswer::Set), "fold 2: set"),
    (
        Row::Fold(FoldAnswer::Refused(FoldRefusal::EmptyRange)),
        "fold 2: emptyrange",
    ),
    (
        Row::Fold(FoldAnswer::Refused(FoldRefusal::InsideChar(0))),
        "fold 2: insidechar 0",
    ),
    (Row::Unfold(UnfoldAnswer::Count(12)), "unfold 2: 12"),
    (
        Row::Unfold(UnfoldAnswer::Refused(FoldRefusal::PastEnd(0, 6))),
        "unfold 2: pastend 0 6",
    ),
    (
        Row::Unfold(UnfoldAnswer::Refused(FoldRefusal::Reversed(0))),
        "unfold 2: reversed 0",
    ),
    (
        Row::Folded("aY\u{22ef}ef"),
        "folded 2: 7 bytes, \"aY\u{22ef}ef\"",
    ),
    (
        Row::Display(DisplayAnswer::Places(1, 4)),
        "display 2 at 1: 1 4",
    ),
    (Row::Display(DisplayAnswer::Nothing), "display 2 at 1: none"),
    (Row::Excerpt(ExcerptAnswer::Index(1)), "excerpt \"m\": 1"),
    (
        Row::Excerpt(ExcerptAnswer::PastEnd(0, 7)),
        "excerpt \"m\": pastend 0 7",
    ),
    (Row::Multi("ab\ndef"), "multi \"m\": 6 bytes, \"ab\\ndef\""),
    (Row::Multi(""), "multi \"m\": 0 bytes, \"\""),
    (
        Row::Numbers(NUMBERS),
        "medit \"m\": 1 3.2, 2 nothing, 3 clockend",
    ),
    (
        Row::Split(SplitRefusal::Crosses(0)),
        "medit \"m\": crosses 0",
    ),
    (
        Row::Split(SplitRefusal::Shared(0, 1)),
        "medit \"m\": shared 0 1",
    ),
    (
        Row::Split(SplitRefusal::TextLimit(65_537)),
        "medit \"m\": textlimit 65537",
    ),
];

fn text(alloc: Global, text: &str) -> Result<Text, OutOfMemory> {
    Ok(Text::new(String::from_str(alloc, text)?))
}

fn selected_line(answer: SelectedAnswer) -> MoreReport {
    MoreReport::Selected {
        author: 1,
        replica: 2,
        answer,
    }
}

fn medit(alloc: Global, answer: MeditAnswer) -> Result<MoreReport, OutOfMemory> {
    let name = text(alloc, "m")?;
    Ok(MoreReport::Medit { name, answer })
}

fn selection_of(alloc: Global, row: Row) -> Result<Option<MoreReport>, OutOfMemory> {
    Ok(Some(match row {
        Row::Select(answer) => MoreReport::Select {
            name: text(alloc, "m")?,
            answer,
        },
        Row::Share(answer) => MoreReport::Share {
            name: text(alloc, "m")?,
            replica: 2,
            answer,
        },
        Row::Ranges(ranges) => {
            selected_line(SelectedAnswer::Ranges(TextRanges::new(ranges.to_vec(alloc)?)))
        }
        Row::NoRanges => selected_line(SelectedAnswer::Nothing),
        Row::Unknown(i) => selected_line(SelectedAnswer::Unknown(i)),
        _ => return Ok(None),
    }))
}

fn fold_of(alloc: Global, row: Row) -> Result<Option<MoreReport>, OutOfMemory> {
    Ok(Some(match row {
        Row::Fold(answer) => MoreReport::Fold { replica: 2, answer },
        Row::Unfold(answer) => MoreReport::Unfold { replica: 2, answer },
        Row::Folded(shown) => MoreReport::Folded {
            replica: 2,
            text: text(alloc, shown)?,
        },
        Row::Display(answer) => MoreReport::Display {
            offset: 2,
            replica: 1,
            answer,
        },
        _ => return Ok(None),
    }))
}

fn excerpt_of(alloc: Global, row: Row) -> Result<Option<MoreReport>, OutOfMemory> {
    Ok(Some(match row {
        Row::Excerpt(answer) => MoreReport::Excerpt {
            name: text(alloc, "m")?,
            answer,
        },
        Row::Multi(shown) => MoreReport::Multi {
            name: text(alloc, "m")?,
            text: text(alloc, shown)?,
        },
        Row::Numbers(numbers) => {
            let answers = NumberAnswers::new(numbers.to_vec(alloc)?);
            medit(alloc, MeditAnswer::Numbers(answers))?
        }
        Row::Split(fault) => medit(alloc, MeditAnswer::Refused(fault))?,
        _ => return Ok(None),
    }))
}

// Whether the line is written after another text, where there is one.
fn writes(alloc: Global, line: Option<MoreReport>, want: &str) -> Result<bool, OutOfMemory> {
    let Some(line) = line else {
        return Ok(false);
    };
    let mut out = b"before\n".to_vec(alloc)?;
    write_line(alloc, &mut out, &line)?;
    Ok(is_after(out.as_slice(), want))
}

// Whether one line stands after another text.
fn is_after(out: &[u8], want: &str) -> bool {
    match out.strip_prefix(b"before\n") {
        Some(line) => line.strip_suffix(b"\n") == Some(want.as_bytes()),
        None => false,
    }
}

fn is_written(alloc: Global, row: Row, want: &str) -> Result<bool, OutOfMemory> {
    let is_selection = writes(alloc, selection_of(alloc, row)?, want)?;
    let is_fold = writes(alloc, fold_of(alloc, row)?, want)?;
    let is_excerpt = writes(alloc, excerpt_of(alloc, row)?, want)?;
    Ok(is_selection || is_fold || is_excerpt)
}

#[test]
fn lines_are_written(rt: HostRuntime) {
    for &(row, want) in ROWS {
        assert!(rt; is_written(rt.alloc(), row, want) == Ok(true), "{want}");
    }
}
