//! Reads the header of a file: its form, and the place of its first directory (TIFF 6.0, section 2,
//! "Image File Header").

ghost use Rattle.std.specs.Prelude.{◌≡◌, ℕ, ◌≤◌, true, false, List, length, IfOk};
ghost use Rattle.std.specs.Prelude.{MatchOption};
ghost use Rattle.std.specs.Option.{ForSome};
ghost use Rattle.tiff_format.specs.declared.form.TheConstants.{HEADER_BYTES};
ghost use Rattle.tiff_format.specs.Bytes.{has_mark as spec_mark, is_big, is_marked};
ghost use Rattle.tiff_format.specs.Form.{form_of, header_bytes, first_place};
ghost use Rattle.tiff_format.specs.Fault.{header_fault, says_wide as spec_wide};
ghost use Rattle.tiff_format.specs.Bytes.{IsPartAt};
ghost use Rattle.tiff_entries.specs.Header.{IsHeader};
ghost use Rattle.tiff_entries.specs.Calls.{Finds, Tests, Reads, Leaves};

use crate::error::DirsError;
use crate::place::FilePlace;
use crate::reader::{ByteReader, read_at};
use tiff_format::{Form, HEADER_BYTES, MAX_OFFSET_BYTES, TiffFault};

/// Where the version is, after the byte-order mark.
const VERSION_AT: usize = 2;

/// The version of a TIFF file.
const TIFF_VERSION: u16 = 42;

/// The version of a BigTIFF file.
const WIDE_VERSION: u16 = 43;

/// Where the place of the first directory is; in BigTIFF, where the size of offsets is.
const BEHIND_VERSION: usize = 4;

/// Whether the first two bytes of the file are this letter.
#[tactic(auto, unfolding(tiff_format::specs::Bytes::has_mark))]
fn has_mark(letter: u8, head: &[u8]) -> bool
    requires { 2 ≤ length head.now }
    ensures { result ≡ spec_mark letter head.now }
{
    head[0] == letter && head[1] == letter
}

/// Whether numbers have their highest byte first. `None` if the mark is not valid.
fn is_big_by_mark(head: &[u8]) -> Option<bool>
    requires { 2 ≤ length head.now }
    ensures { (bytes : List ℕ) → IsPartAt bytes 0 head.now → MatchOption result
        (is_marked bytes ≡ false) (λ big. (is_marked bytes ≡ true) × (big ≡ is_big bytes)) }
{
    if has_mark(b'M', head) {
        Some(true)
    } else if has_mark(b'I', head) {
        Some(false)
    } else {
        None
    }
}

/// Whether the header says that offsets have 8 bytes, followed by 0, as in BigTIFF.
fn says_wide(form: Form, head: &[u8]) -> bool
    requires { HEADER_BYTES ≤ length head.now }
    ensures { (bytes : List ℕ) → IsPartAt bytes 0 head.now → form.big ≡ is_big bytes
        → result ≡ spec_wide bytes }
{
    let offset_bytes = form.short_at(head, BEHIND_VERSION);
    let zero = form.short_at(head, BEHIND_VERSION + 2);
    offset_bytes == MAX_OFFSET_BYTES as u16 && zero == 0
}

/// The form of a file of this length, from the first bytes, which every header has.
fn form_of_head(head: &[u8], file: u64) -> Result<Form, TiffFault>
    requires head { HEADER_BYTES ≤ length head.now }
    requires file { HEADER_BYTES ≤ file }
    ensures told { (bytes : List ℕ) → IsPartAt bytes 0 head.now → length bytes ≡ file
        → Tests (header_fault bytes) (λ form. form ≡ form_of bytes) result }
    ensures long { IfOk result (λ form. header_bytes form ≤ file) }
{
    let Some(big) = is_big_by_mark(head) else {
        return Err(TiffFault::BadMark);
    };
    let narrow = Form { big, wide: false };
    let version = narrow.short_at(head, VERSION_AT);
    if version == TIFF_VERSION {
        return Ok(narrow);
    }
    let form = Form { big, wide: true };
    if version != WIDE_VERSION {
        return Err(TiffFault::BadVersion);
    }
    if file < form.header_bytes() {
        return Err(TiffFault::Short);
    }
    if !says_wide(form, head) {
        return Err(TiffFault::BadVersion);
    }
    Ok(form)
}

/// The place of the first directory. In BigTIFF it comes after the bytes that every header has.
fn read_first<B: ByteReader>(b: &mut B, form: Form, head: &[u8]) -> Result<u64, DirsError<B::Error>>
    requires head { HEADER_BYTES ≤ length head.now }
    requires long { header_bytes form ≤ B.size b.old }
    ensures told { ForSome (B.bytes b.old) (λ bytes. IsPartAt bytes 0 head.now
        → Reads (λ at. at ≡ first_place form bytes) result) }
    ensures reader { Leaves B.keeps B.refuses b.old b.new result }
{
    if !form.wide {
        return Ok(form.offset_at(head, BEHIND_VERSION));
    }
    let mut rest = [0u8; MAX_OFFSET_BYTES];
    read_at(b, HEADER_BYTES as u64, &mut rest)?;
    Ok(form.offset_at(&rest, 0))
}

/// The place of the first directory. Reads the header in one read, or in two for BigTIFF.
pub fn read_header<B: ByteReader>(b: &mut B) -> Result<FilePlace, DirsError<B::Error>>
    ensures told { ForSome (B.bytes b.old) (λ bytes.
        Finds (header_fault bytes) (IsHeader bytes) result) }
    ensures reader { Leaves B.keeps B.refuses b.old b.new result }
{
    let file = b.len();
    if file < HEADER_BYTES as u64 {
        return Err(DirsError::Fault(TiffFault::Short));
    }
    let mut head = [0u8; HEADER_BYTES];
    read_at(b, 0, &mut head)?;
    let form = form_of_head(&head, file)?;
    let at = read_first(b, form, &head)?;
    Ok(FilePlace { form, at })
}
