//! Reads the bytes of the list from the feed.

ghost use Rattle.std.specs.Prelude.{◌≡◌, ◌<◌, length, IfOk, IfErr};
ghost use Rattle.render_run.specs.declared.list.ListError.TheVariants.{NoMemory};
ghost use Rattle.render_run.specs.Around.{feed_state};
ghost use Rattle.render_run.specs.ListRead.{IsRead, ListCause};

use request_lang::MAX_LIST_BYTES;
use std::alloc::{AllocError, Global};
use tex_world::{Failed, Feed};

/// How many bytes are read from the feed at a time.
const CHUNK: usize = 65536;

/// Why the list could not be read.
#[derive(Debug, Drop)]
pub(crate) enum ListError {
    /// The feed failed.
    Failed,
    /// Out of memory.
    NoMemory,
}

impl From<AllocError> for ListError {
    ghost from_gives = { λ _ e. e ≡ NoMemory };

    fn from(_e: AllocError) -> ListError {
        ListError::NoMemory
    }
}

impl From<Failed> for ListError {
    ghost use Rattle.render_run.specs.declared.list.ListError.TheVariants as list;

    ghost from_gives = { λ _ e. e ≡ list.Failed };

    fn from(_e: Failed) -> ListError {
        ListError::Failed
    }
}

/// Reads all bytes of the feed. It stops if they are more than a list may have.
pub(crate) fn read_list<I: Feed>(alloc: Global, feed: &mut I) -> Result<Vec<u8>, ListError>
    ensures read { IfOk result
        (λ bytes. IsRead bytes.items (I.left feed.old) (I.left feed.new)) }
    ensures cause { IfErr result (ListCause
        (feed_state I.faults I.left feed.old) (feed_state I.faults I.left feed.new)) }
{
    let mut chunk = vec![in alloc; 0u8; CHUNK]?;
    read_chunks(alloc, feed, &mut chunk)
}

/// Reads all bytes of the feed through a buffer.
fn read_chunks<I: Feed>(alloc: Global, feed: &mut I, chunk: &mut [u8]) -> Result<Vec<u8>, ListError>
    requires { 0 < length chunk.old }
    ensures read { IfOk result
        (λ bytes. IsRead bytes.items (I.left feed.old) (I.left feed.new)) }
    ensures cause { IfErr result (ListCause
        (feed_state I.faults I.left feed.old) (feed_state I.faults I.left feed.new)) }
{
    let mut bytes = Vec::new(alloc);
    'more: while bytes.len() <= MAX_LIST_BYTES {
        let n = feed.read(chunk)?;
        if n == 0 {
            return Ok(bytes);
        }
        bytes.extend_from_slice(&chunk[..n])?;
    }
    Ok(bytes)
}
