//! Prints the closing lines of a run.

ghost use Rattle.std.specs.Prelude.{◌≡◌, ◌++◌, ◌≤◌, OnOk, OnErr};
ghost use Rattle.short_text.specs.Appending.{Pushes, Fits};
ghost use Rattle.request_lang.specs.Appending.{max_part_bytes, max_apart_bytes};
ghost use Rattle.request_lang.specs.Closing.{worker_line, total_line, apart_field};

use crate::line::push_line;
use short_text::push_text;
use std::alloc::AllocError;
use tex_world::NoMemory;

/// The counts of a worker: needs, hits and uncached needs.
#[derive(Clone, Copy, Debug, PartialEq, Eq)]
pub struct Counts {
    pub needs: u64,
    pub hits: u64,
    pub apart: u64,
}

/// Appends the number of uncached needs, if it is not 0.
fn push_apart(out: &mut Vec<u8>, apart: u64) -> Result<(), AllocError>
    ensures text { Pushes (apart_field apart) out.old.items out.new.items result }
    ensures fits { Fits max_apart_bytes out.old out.new result }
{
    if apart == 0 {
        return Ok(());
    }
    push_line(out, " apart", &[apart])
}

/// Appends the line of a worker, with its line feed.
#[tactic(auto, using(short_text::proofs::AppendLemmas::kept))]
fn push_worker(out: &mut Vec<u8>, worker: u32, counts: Counts) -> Result<(), AllocError>
    ensures text { Pushes (worker_line worker counts) out.old.items out.new.items result }
    ensures fits { Fits max_part_bytes out.old out.new result }
{
    push_line(out, "worker", &[u64::from(worker)])?;
    push_line(out, " needs", &[counts.needs])?;
    push_line(out, " hits", &[counts.hits])?;
    push_apart(out, counts.apart)?;
    push_text(out, b"\n")
}

/// Appends the line with the numbers of requests and refusals, with its line feed.
#[tactic(auto, using(short_text::proofs::AppendLemmas::kept))]
fn push_total(out: &mut Vec<u8>, total: u64, refused: u64) -> Result<(), AllocError>
    ensures text { Pushes (total_line total refused) out.old.items out.new.items result }
    ensures fits { Fits max_part_bytes out.old out.new result }
{
    push_line(out, "total", &[total])?;
    push_line(out, " refused", &[refused])?;
    push_text(out, b"\n")
}

/// Appends the line of a worker: its needs, its hits and, if not 0, its uncached needs. Allocates
/// nothing if `MAX_PART_BYTES` bytes are reserved.
pub fn worker_text(worker: u32, counts: Counts, out: &mut Vec<u8>) -> Result<(), NoMemory>
    ensures ok { OnOk result (out.new.items ≡ out.old.items ++ worker_line worker counts) }
    ensures err { OnErr result (out.new.items ≡ out.old.items) }
    ensures fits { Fits max_part_bytes out.old out.new result }
{
    let before = out.as_slice().len();
    match push_worker(out, worker, counts) {
        Ok(()) => Ok(()),
        Err(_) => {
            out.truncate(before);
            Err(NoMemory)
        }
    }
}

/// Appends the line with the numbers of requests and refusals. Allocates nothing if
/// `MAX_PART_BYTES` bytes are reserved.
pub fn total_text(total: u64, refused: u64, out: &mut Vec<u8>) -> Result<(), NoMemory>
    ensures ok { OnOk result (out.new.items ≡ out.old.items ++ total_line total refused) }
    ensures err { OnErr result (out.new.items ≡ out.old.items) }
    ensures fits { Fits max_part_bytes out.old out.new result }
{
    let before = out.as_slice().len();
    match push_total(out, total, refused) {
        Ok(()) => Ok(()),
        Err(_) => {
            out.truncate(before);
            Err(NoMemory)
        }
    }
}
