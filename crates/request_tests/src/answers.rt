//! Lines of answers with large numbers, which no small run has: generations, sides, counts and
//! values.

use request_lang::{Answer, Shards, Values, line_text};
use short_text::ValueTexts;
use std::alloc::{AllocError, Global};
use std::process::Abort;
use std::test::Fail;
use tiff_format::{Rect, ShardCount, TiffFault};

// the line is appended after what is there
fn prints(
    alloc: Global,
    texts: &ValueTexts,
    answer: &Answer,
    line: &str,
) -> Result<bool, AllocError> {
    let mut out = Vec::from_slice(alloc, b"first\n")?;
    let appended = line_text(texts, answer, &mut out);
    let wanted = format!(in alloc; "first\n{line}\n")?;
    Ok(appended.is_ok() && out.as_slice() == wanted.as_bytes())
}

fn is_line(
    rt: &impl Abort,
    alloc: Global,
    texts: &ValueTexts,
    answer: Answer,
    line: &str,
) -> Result<(), Fail> {
    assert!(rt; prints(alloc, texts, &answer, line)?, "at {line}");
    Ok(())
}

/// A word (a lookup, one along a footprint, or a region of eight channels), its generation, its
/// values, and its line.
static VALUES: &[(&str, u32, &[u16], &str)] = &[
    ("tex", 1048575, &[1, 22, 333], "tex 1048575 1 22 333"),
    ("tex", 2, &[], "tex 2"),
    (
        "texd",
        4294967295,
        &[0, 65535, 7, 80, 900, 1000, 20000, 3],
        "texd 4294967295 0 65535 7 80 900 1000 20000 3",
    ),
    ("pixels", 4294967295, &[], "pixels 4294967295 8"),
    (
        "pixels",
        7,
        &[0, 9, 10, 99, 100, 999, 9999, 10000],
        "pixels 7 8 0 9 10 99 100 999 9999 10000",
    ),
];

fn answer_of(word: &str, generation: u32, values: Values) -> Answer {
    match word {
        "tex" => Answer::Tex { generation, values },
        "texd" => Answer::Texd { generation, values },
        _ => Answer::Pixels {
            generation,
            channels: 8,
            values,
        },
    }
}

#[test]
fn prints_great_generations(rt: HostRuntime) -> Result<(), Fail> {
    let alloc = rt.alloc();
    let texts = ValueTexts::new(alloc)?;
    for (word, generation, items, line) in VALUES {
        let values = Values::new(Vec::from_slice(alloc, items)?);
        is_line(
            &rt,
            alloc,
            &texts,
            answer_of(word, *generation, values),
            line,
        )?;
    }
    Ok(())
}

static COUNTS: [ShardCount; 2] = [
    ShardCount {
        tiles: 1,
        pins: 20,
        loose: 300,
        share: 4000,
    },
    ShardCount {
        tiles: 4294967295,
        pins: 0,
        loose: 18446744073709551615,
        share: 268435456,
    },
];

const RECT: Rect = Rect {
    x: 64,
    y: 128,
    w: 3,
    h: 4294967295,
};

const FAULT: TiffFault = TiffFault::Unsupported {
    tag: 259,
    value: 18446744073709551615,
};

#[test]
fn prints_great_numbers(rt: HostRuntime) -> Result<(), Fail> {
    let alloc = rt.alloc();
    let texts = ValueTexts::new(alloc)?;
    let counts = Vec::from_slice(alloc, &COUNTS)?;
    if counts.len() > 64 {
        return Err("too many shards".into());
    }
    let rows = [
        (
            Answer::Stat {
                shards: Shards::new(counts),
            },
            "stat 1,20,300,4000 4294967295,0,18446744073709551615,268435456",
        ),
        (
            Answer::Held {
                generation: 9,
                rect: RECT,
            },
            "held 9 64 128 3 4294967295",
        ),
        (
            Answer::BadFile {
                generation: 5,
                fault: FAULT,
            },
            "bad file 5 7 259 18446744073709551615",
        ),
        (
            Answer::Again {
                from: 1,
                to: 1048575,
            },
            "again 1 1048575",
        ),
    ];
    for (answer, line) in rows {
        is_line(&rt, alloc, &texts, answer, line)?;
    }
    Ok(())
}
