//! Prints the lines of answers.

ghost use Rattle.std.specs.Prelude.{◌≡◌, ◌≤◌, ◌+◌, ◌*◌, ◌++◌, ◌∷◌, [], codes, take, length};
ghost use Rattle.std.specs.Prelude.{OnOk, OnErr, IsOk};
ghost use Rattle.std.specs.List.{flat_map};
ghost use Rattle.request_lang.specs.Grammar.{line_feed};
ghost use Rattle.request_lang.specs.Line as spec;
ghost use Rattle.short_text.specs.Number.{fields};
ghost use Rattle.short_text.specs.Appending.{Pushes, Fits, max_number_bytes};
ghost use Rattle.request_lang.specs.Appending.{max_shard_bytes};
ghost use Rattle.request_lang.specs.Appending.{max_head_bytes, max_part_bytes, few_values};
ghost use Rattle.request_lang.specs.Line.{values_in};

use crate::answer::Answer;
use crate::cause::BadList;
use crate::values::{push_last, push_lookup, push_values};
use short_text::{ValueTexts, push_numbers, push_text};
use std::alloc::AllocError;
use tex_world::NoMemory;
use tiff_format::{Info, ShardCount, TiffFault};

/// Generations up to this one are printed like 16-bit values, which is faster.
const MAX_SHORT_GENERATION: u32 = u16::MAX as u32;

/// Appends a word and numbers, each number after a space.
#[tactic(auto, using(short_text::proofs::AppendLemmas::kept))]
pub(crate) fn push_line(out: &mut Vec<u8>, word: &str, numbers: &[u64]) -> Result<(), AllocError>
    ensures text { Pushes (word.now ++ fields numbers.now) out.old.items out.new.items result }
    ensures fits { Fits (length word.now + max_number_bytes * length numbers.now)
        out.old out.new result }
{
    push_text(out, word.as_bytes())?;
    push_numbers(out, b' ', numbers)
}

/// Appends the counts of a shard.
#[tactic(auto, using(short_text::proofs::AppendLemmas::kept))]
fn push_shard(out: &mut Vec<u8>, shard: &ShardCount) -> Result<(), AllocError>
    ensures text { Pushes (spec.shard_text shard.now) out.old.items out.new.items result }
    ensures fits { Fits max_shard_bytes out.old out.new result }
{
    push_numbers(out, b' ', &[u64::from(shard.tiles)])?;
    push_numbers(
        out,
        b',',
        &[u64::from(shard.pins), shard.loose, shard.share],
    )
}

/// Appends the counts of all shards, in order.
#[tactic(auto, using(short_text::proofs::AppendLemmas::kept))]
fn push_shards(out: &mut Vec<u8>, shards: &[ShardCount]) -> Result<(), AllocError>
    ensures text { Pushes (flat_map spec.shard_text shards.now) out.old.items out.new.items result }
    ensures fits { Fits (max_shard_bytes * length shards.now) out.old out.new result }
{
    for shard in shards {
        push_shard(out, shard)?;
    }
    Ok(())
}

/// Appends a word and the counts of all shards.
#[tactic(auto, using(short_text::proofs::AppendLemmas::kept))]
fn push_shards_line(out: &mut Vec<u8>, word: &str, shards: &[ShardCount]) -> Result<(), AllocError>
    ensures text { Pushes (word.now ++ flat_map spec.shard_text shards.now)
        out.old.items out.new.items result }
    ensures fits { Fits (length word.now + max_shard_bytes * length shards.now)
        out.old out.new result }
{
    push_text(out, word.as_bytes())?;
    push_shards(out, shards)
}

/// Appends the size and the levels of a file.
#[tactic(auto, using(short_text::proofs::AppendLemmas::kept))]
fn push_info(out: &mut Vec<u8>, info: &Info) -> Result<(), AllocError>
    ensures text { Pushes (codes "info" ++ fields (spec.info_numbers info.now))
        out.old.items out.new.items result }
    ensures fits { Fits max_head_bytes out.old out.new result }
{
    let numbers = [
        u64::from(info.generation),
        u64::from(info.width),
        u64::from(info.height),
        u64::from(info.channels),
        u64::from(info.depth),
        u64::from(info.stored),
        u64::from(info.levels),
    ];
    push_line(out, "info", &numbers)
}

/// Appends a file fault: its number in the order of checks, and its own numbers.
#[tactic(auto, using(short_text::proofs::AppendLemmas::kept))]
fn push_fault(out: &mut Vec<u8>, generation: u32, fault: &TiffFault) -> Result<(), AllocError>
    ensures text { Pushes
        (codes "bad file" ++ fields (generation ∷ spec.fault_numbers fault.now))
        out.old.items out.new.items result }
    ensures fits { Fits max_head_bytes out.old out.new result }
{
    let generation = u64::from(generation);
    let code = u64::from(fault.code());
    match *fault {
        TiffFault::FieldMissing { tag } | TiffFault::FieldShape { tag } => {
            push_line(out, "bad file", &[generation, code, u64::from(tag)])
        }
        TiffFault::Unsupported { tag, value } => {
            push_line(out, "bad file", &[generation, code, u64::from(tag), value])
        }
        TiffFault::DataOutside { level, index } => {
            push_line(
                out,
                "bad file",
                &[generation, code, u64::from(level), u64::from(index)],
            )
        }
        _ => push_line(out, "bad file", &[generation, code]),
    }
}

/// Appends the line of an answer up to its values.
#[tactic(auto, unfolding(crate::specs::Line::head_of), using(short_text::proofs::AppendLemmas::kept))]
fn push_head(out: &mut Vec<u8>, answer: &Answer) -> Result<(), AllocError>
    ensures text { Pushes (spec.head_of answer.now) out.old.items out.new.items result }
    ensures fits { Fits max_head_bytes out.old out.new result }
{
    match answer {
        Answer::Tex { generation, .. } => push_line(out, "tex", &[u64::from(*generation)]),
        Answer::Texd { generation, .. } => push_line(out, "texd", &[u64::from(*generation)]),
        Answer::Pixels {
            generation,
            channels,
            ..
        } => push_line(
            out,
            "pixels",
            &[u64::from(*generation), u64::from(*channels)],
        ),
        Answer::Info(info) => push_info(out, info),
        Answer::Held { generation, rect } => push_line(
            out,
            "held",
            &[
                u64::from(*generation),
                u64::from(rect.x),
                u64::from(rect.y),
                u64::from(rect.w),
                u64::from(rect.h),
            ],
        ),
        Answer::Dropped => push_line(out, "dropped", &[]),
        Answer::Invalidated { generation } => {
            push_line(out, "invalidated", &[u64::from(*generation)])
        }
        Answer::Renewed { generation } => push_line(out, "renewed", &[u64::from(*generation)]),
        Answer::InvalidatedAll => push_line(out, "invalidated all", &[]),
        Answer::Stat { shards } => push_shards_line(out, "stat", shards.as_slice()),
        Answer::Synced => push_line(out, "sync", &[]),
        Answer::NoSuchFile => push_line(out, "no such file", &[]),
        Answer::BadFile { generation, fault } => push_fault(out, *generation, fault),
        Answer::TileTooLarge { generation } => {
            push_line(out, "tile too large", &[u64::from(*generation)])
        }
        Answer::NoLevel { generation, levels } => {
            push_line(
                out,
                "no level",
                &[u64::from(*generation), u64::from(*levels)],
            )
        }
        Answer::Outside { generation } => push_line(out, "outside", &[u64::from(*generation)]),
        Answer::RegionTooLarge => push_line(out, "region too large", &[]),
        Answer::HoldsFull => push_line(out, "holds full", &[]),
        Answer::NothingHeld => push_line(out, "nothing held", &[]),
        Answer::Again { from, to } => {
            push_line(out, "again", &[u64::from(*from), u64::from(*to)])
        }
        Answer::ReadFault => push_line(out, "read fault", &[]),
        Answer::NoMemory => push_line(out, "no memory", &[]),
    }
}

/// Appends the line of an answer without its line feed.
#[tactic(auto, using(short_text::proofs::AppendLemmas::kept))]
fn push_answer(texts: &ValueTexts, out: &mut Vec<u8>, answer: &Answer) -> Result<(), AllocError>
    ensures { Pushes (spec.text_of answer.now) out.old.items out.new.items result }
{
    push_head(out, answer)?;
    push_values(texts, out, answer.values())
}

/// Ends a line whose text was appended after the first `before` bytes. If that failed, the text is
/// removed again.
fn end_line(
    out: &mut Vec<u8>,
    before: usize,
    pushed: Result<(), AllocError>,
) -> Result<(), NoMemory>
    requires { before ≤ length out.old.items }
    ensures ok { OnOk result (IsOk pushed × (out.new.items ≡ out.old.items ++ line_feed ∷ [])) }
    ensures err { OnErr result (out.new.items ≡ take before out.old.items) }
{
    if pushed.is_ok() && out.push(b'\n').is_ok() {
        return Ok(());
    }
    out.truncate(before);
    Err(NoMemory)
}

/// Appends the line of an answer up to its 16-bit values, if it has any, without the line feed.
/// Allocates nothing if `MAX_PART_BYTES` bytes are reserved.
pub fn head_text(answer: &Answer, out: &mut Vec<u8>) -> Result<(), NoMemory>
    ensures ok { OnOk result (out.new.items ≡ out.old.items ++ spec.head_of answer.now) }
    ensures err { OnErr result (out.new.items ≡ out.old.items) }
    ensures fits { Fits max_part_bytes out.old out.new result }
{
    let before = out.as_slice().len();
    match push_head(out, answer) {
        Ok(()) => Ok(()),
        Err(_) => {
            out.truncate(before);
            Err(NoMemory)
        }
    }
}

/// Appends the line of an answer with at most a few values, with its line feed. Allocates nothing
/// if `MAX_PART_BYTES` bytes are reserved.
pub fn short_line_text(
    texts: &ValueTexts,
    answer: &Answer,
    out: &mut Vec<u8>,
) -> Result<(), NoMemory>
    requires { length (values_in answer.now) ≤ few_values }
    ensures ok { OnOk result (out.new.items ≡ out.old.items ++ spec.line_of answer.now) }
    ensures err { OnErr result (out.new.items ≡ out.old.items) }
    ensures fits { Fits max_part_bytes out.old out.new result }
{
    let before = out.as_slice().len();
    match push_short_line(texts, answer, out) {
        Ok(()) => Ok(()),
        Err(_) => {
            out.truncate(before);
            Err(NoMemory)
        }
    }
}

/// Appends the line, or a first part of it if memory runs out. The line of a lookup, whose
/// generation usually fits 16 bits, is made in few steps.
#[inline(always)]
#[tactic(auto, unfolding(crate::specs::Line::head_of), using(short_text::proofs::AppendLemmas::kept))]
fn push_short_line(texts: &ValueTexts, answer: &Answer, out: &mut Vec<u8>) -> Result<(), AllocError>
    requires { length (values_in answer.now) ≤ few_values }
    ensures text { Pushes (spec.line_of answer.now) out.old.items out.new.items result }
    ensures fits { Fits max_part_bytes out.old out.new result }
{
    match answer {
        Answer::Tex { generation, values } if *generation <= MAX_SHORT_GENERATION => {
            push_lookup(texts, out, "tex", *generation as u16, values.as_slice())
        }
        Answer::Texd { generation, values } if *generation <= MAX_SHORT_GENERATION => {
            push_lookup(texts, out, "texd", *generation as u16, values.as_slice())
        }
        _ => push_other_line(texts, answer, out),
    }
}

/// Appends the line of any answer with at most a few values, or a first part of it.
#[tactic(auto, using(short_text::proofs::AppendLemmas::kept))]
fn push_other_line(texts: &ValueTexts, answer: &Answer, out: &mut Vec<u8>) -> Result<(), AllocError>
    requires { length (values_in answer.now) ≤ few_values }
    ensures text { Pushes (spec.line_of answer.now) out.old.items out.new.items result }
    ensures fits { Fits max_part_bytes out.old out.new result }
{
    push_head(out, answer)?;
    push_last(texts, out, answer.values())
}

/// Appends the line of an answer, with its line feed.
pub fn line_text(texts: &ValueTexts, answer: &Answer, out: &mut Vec<u8>) -> Result<(), NoMemory>
    ensures ok { OnOk result (out.new.items ≡ out.old.items ++ spec.line_of answer.now) }
    ensures err { OnErr result (out.new.items ≡ out.old.items) }
{
    let before = out.as_slice().len();
    let pushed = push_answer(texts, out, answer);
    end_line(out, before, pushed)
}

/// Appends the line that says why a list is invalid, with its line feed.
pub fn bad_list_text(bad: BadList, out: &mut Vec<u8>) -> Result<(), NoMemory>
    ensures ok { OnOk result (out.new.items ≡ out.old.items ++ spec.bad_list_line bad) }
    ensures err { OnErr result (out.new.items ≡ out.old.items) }
{
    let before = out.as_slice().len();
    let pushed = push_line(out, "bad list", &[u64::from(bad.line), u64::from(bad.why)]);
    end_line(out, before, pushed)
}
