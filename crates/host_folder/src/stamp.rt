//! What a look at a file of the file system shows.
ghost use Rattle.std.specs.Prelude.{◌≡◌, ◌↔◌, ◌<◌, IsSome, IfSome};
ghost use Rattle.std.specs.Fs.{metadata_len, file_type, IsFile};
ghost use Rattle.file_stamp.specs.Stamp.{stamps, nanos_end, HasStamp};

use file_stamp::stamp_of;
use std::fs::Metadata;
use std::time::UNIX_EPOCH;

/// What was seen of a plain file: its length in bytes and its stamp.
#[derive(Clone, Copy)]
pub struct FileStatus {
    pub len: u64,
    pub stamp: u64,
    ghost in_range: { stamp < stamps },
}

/// What the system says about a file. `None` if it is not a plain file.
pub fn status_of(metadata: &Metadata) -> Option<FileStatus>
    ensures plain { IsSome result ↔ IsFile (file_type metadata.now) }
    ensures len { IfSome result (λ look. look.len ≡ metadata_len metadata.now) }
    ensures stamp { IfSome result (λ look. HasStamp look.len look.stamp) }
{
    if !metadata.is_file() {
        return None;
    }
    let len = metadata.len();
    let stamp = stamp_of(len, modified(metadata));
    Some(FileStatus { len, stamp })
}

/// When the file was changed, in nanoseconds since 1970. 0 if the system gives no time or an
/// earlier one.
fn modified(metadata: &Metadata) -> u128
    ensures { result < nanos_end }
{
    match metadata.modified() {
        Ok(time) => match time.duration_since(UNIX_EPOCH) {
            Ok(since) => since.as_nanos(),
            Err(_) => 0,
        },
        Err(_) => 0,
    }
}
