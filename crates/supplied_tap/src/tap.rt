//! A tap whose bytes the caller supplies.
ghost use Rattle.std.specs.Prelude.{◌≡◌, ◌+◌, ◌≤◌, [], true, false, IsTrue, IsFalse, IfSome};
ghost use Rattle.std.specs.Prelude.{IsNone, length, slice_index, IfOk, IfErr, OnOk, OnErr};
ghost use Rattle.std.specs.List.{EachIndex};
ghost use Rattle.std.specs.Option.{ForSome};
ghost use Rattle.tex_world.specs.Counts.{Rises};
ghost use Rattle.tex_world.specs.World.{IsReal};
ghost use Rattle.tex_world.specs.Tap.{IsNew, Opens, OpenCause, AfterOpen, AfterNewest, AfterRead};
ghost use Rattle.tex_world.specs.Tap.{ReadCause, IsFault, AreRows, HoldsRows};
ghost use Rattle.tex_world.specs.Tap.{NamesNewer};
ghost use Rattle.supplied_tap.specs.Truth.{AreTrueBytes, AreTrueRows};
ghost use Rattle.supplied_tap.specs.SuppliedHandle.{handle_named};
ghost use Rattle.supplied_tap.specs.SuppliedWorld.{supplied_files};
ghost use Rattle.supplied_tap.specs.SuppliedTap.{tap_state, looks_of, parts_of, rows_of, HasNoSupplies};
ghost use Rattle.supplied_tap.specs.SuppliedTap.{IsOneOf, LacksLookAt, LacksPartAt, LacksRowsAt, IsUnread};
ghost use Rattle.supplied_tap.specs.SuppliedTap.{KeepsLooks, rows_at, bytes_needed};
ghost use Rattle.supplied_tap.specs.SuppliedTap.{KeepsBytes, KeepsSupplies};

use crate::handle::SuppliedHandle;
use crate::supply::{FileVersion, Need, RowsAt, SuppliedBytes, SuppliedRows};
use crate::world::SuppliedWorld;
use std::alloc::Global;
use tex_world::{Failed, OpenError, ReadError, Tap, TapCounters, TapHandle};

/// How many buffers are kept for the next supplies, and how large each may be in bytes.
const MAX_SPARE: usize = 8;

const MAX_SPARE_BYTES: usize = 262144;

/// A tap that reads what the caller supplied for the current call. If something is missing, the tap
/// call counts an I/O error and records what is needed.
#[derive(Drop)]
pub struct SuppliedTap {
    pub(crate) alloc: Global,
    pub(crate) looks: Vec<FileVersion>,
    pub(crate) parts: Vec<SuppliedBytes>,
    pub(crate) rows: Vec<SuppliedRows>,
    /// Used buffers, kept for the next supplies.
    pub(crate) spare: Vec<Vec<u8>>,
    pub(crate) need: Option<Need>,
    /// Whether the caller said that what is needed cannot be read.
    pub(crate) failed: bool,
    counters: TapCounters,
}

impl SuppliedTap {
    /// A tap without calls and supplies.
    pub fn new(alloc: Global) -> SuppliedTap
        ensures new { IsNew (tap_state result) }
        ensures none { HasNoSupplies result }
    {
        SuppliedTap {
            alloc,
            looks: Vec::new(alloc),
            parts: Vec::new(alloc),
            rows: Vec::new(alloc),
            spare: Vec::new(alloc),
            need: None,
            failed: false,
            counters: TapCounters::new(),
        }
    }

    /// What the last call needed. `None` if it succeeded or failed for another reason.
    pub fn need(&self) -> Option<Need>
        ensures { result ≡ self.now.need }
    {
        self.need
    }

    /// Begins a call, or continues it with what was supplied.
    #[inline(always)]
    pub fn begin(&mut self)
        ensures state { tap_state self.new ≡ tap_state self.old }
        ensures need { self.new.need ≡ None }
        ensures supplies { KeepsSupplies self.old self.new }
    {
        // rarely set: testing is cheaper than writing
        if self.need.is_some() {
            self.need = None;
        }
    }

    /// Ends the call and drops what was supplied for it.
    #[inline(always)]
    pub fn end(&mut self)
        ensures state { tap_state self.new ≡ tap_state self.old }
        ensures none { HasNoSupplies self.new }
    {
        self.begin();
        self.failed = false;
        if !self.looks.is_empty() {
            self.looks.clear();
        }
        if !self.parts.is_empty() {
            spare_parts(&mut self.parts, &mut self.spare);
        }
        if !self.rows.is_empty() {
            spare_rows(&mut self.rows, &mut self.spare);
        }
    }

    /// Records what is needed, unless the caller said that it cannot be read.
    fn lack(&mut self, need: Need)
        ensures state { tap_state self.new ≡ tap_state self.old }
        ensures supplies { KeepsSupplies self.old self.new }
        ensures need { self.old.failed ≡ false → self.new.need ≡ Some need }
        ensures failed { self.old.failed ≡ true → self.new.need ≡ self.old.need }
    {
        if !self.failed {
            self.need = Some(need);
        }
    }

    /// The last supplied look at this file whose generation is at least `least`.
    fn look(&self, file: u32, least: u32) -> Option<FileVersion>
        ensures some { IfSome result (λ look. IsOneOf look (looks_of self.now)
            × (look.file ≡ file) × (least ≤ look.generation)) }
        ensures none { IsNone result → LacksLookAt (looks_of self.now) file least }
    {
        latest_look(&self.looks, file, least)
    }

    /// Copies supplied bytes to the buffer. False if they were not supplied.
    fn fill(&self, h: &SuppliedHandle, at: u64, buf: &mut [u8]) -> bool
        ensures told { IsTrue result → AreTrueBytes h.now.file h.now.generation at buf.new }
        ensures none { IsFalse result
            → LacksPartAt (parts_of self.now) (handle_named h.now) at (length buf.old) }
    {
        match supplied(&self.parts, h, at, buf.len()) {
            Some(bytes) => {
                buf.copy_from_slice(bytes);
                true
            }
            None => false,
        }
    }

    /// Copies supplied rows to the buffer. False if they were not supplied.
    fn fill_rows(&self, place: &RowsAt, buf: &mut [u8]) -> bool
        ensures told { IsTrue result → AreTrueRows place.now buf.new }
        ensures none { IsFalse result
            → LacksRowsAt (rows_of self.now) place.now (length buf.old) }
    {
        match supplied_rows(&self.rows, place, buf.len()) {
            Some(bytes) => {
                buf.copy_from_slice(bytes);
                true
            }
            None => false,
        }
    }
}

/// The last of the looks at this file whose generation is at least `least`.
fn latest_look(looks: &[FileVersion], file: u32, least: u32) -> Option<FileVersion>
    ensures some { IfSome result (λ look. IsOneOf look looks.now
        × (look.file ≡ file) × (least ≤ look.generation)) }
    ensures none { IsNone result → LacksLookAt looks.now file least }
{
    let count = looks.len();
    'looks: for k in 0..count {
        let look = looks[count - 1 - k];
        if look.file == file && least <= look.generation {
            return Some(look);
        }
    }
    None
}

/// The `size` bytes of a handle's file at `at`, if one of the parts has all of them.
fn supplied<'a>(
    parts: &'a [SuppliedBytes],
    handle: &SuppliedHandle,
    at: u64,
    size: usize,
) -> Option<&'a [u8]>
    ensures long { IfSome result (λ bytes. length bytes.now ≡ size) }
    ensures told { IfSome result (λ bytes.
        AreTrueBytes handle.now.file handle.now.generation at bytes.now) }
    ensures none { IsNone result → LacksPartAt parts.now (handle_named handle.now) at size }
{
    for part in parts {
        if let Some(bytes) = part.slice(handle, at, size) {
            return Some(bytes);
        }
    }
    None
}

/// The bytes of these rows, `size` together, if they were supplied.
fn supplied_rows<'a>(parts: &'a [SuppliedRows], place: &RowsAt, size: usize) -> Option<&'a [u8]>
    ensures long { IfSome result (λ bytes. length bytes.now ≡ size) }
    ensures told { IfSome result (λ bytes. AreTrueRows place.now bytes.now) }
    ensures none { IsNone result → LacksRowsAt parts.now place.now size }
{
    for part in parts {
        if let Some(bytes) = part.all(place, size) {
            return Some(bytes);
        }
    }
    None
}

/// Drops supplied parts and keeps their buffers.
fn spare_parts(parts: &mut Vec<SuppliedBytes>, spare: &mut Vec<Vec<u8>>)
    ensures { parts.new.items ≡ [] }
{
    for _ in 0..parts.len() {
        if let Some(part) = parts.pop() {
            keep_spare(spare, part.bytes);
        }
    }
    parts.clear();
}

/// Drops supplied rows and keeps their buffers.
fn spare_rows(rows: &mut Vec<SuppliedRows>, spare: &mut Vec<Vec<u8>>)
    ensures { rows.new.items ≡ [] }
{
    for _ in 0..rows.len() {
        if let Some(part) = rows.pop() {
            keep_spare(spare, part.bytes);
        }
    }
    rows.clear();
}

/// Keeps a buffer, unless it is large or enough are kept.
pub(crate) fn keep_spare(spare: &mut Vec<Vec<u8>>, bytes: Vec<u8>) {
    if spare.len() < MAX_SPARE && bytes.capacity() <= MAX_SPARE_BYTES {
        if let Err(_refused) = spare.push(bytes) {}
    }
}

impl Tap for SuppliedTap {
    type W = SuppliedWorld;

    type Handle = SuppliedHandle;

    ghost state = { tap_state };

    /// Answers from the last supplied look at the file.
    fn open(&mut self, _alloc: Global, file: u32, least: u32) -> Result<SuppliedHandle, OpenError>
        ensures ok { IfOk result (λ h. Opens supplied_files file least (handle_named h)) }
        ensures cause { IfErr result (OpenCause (tap_state self.old) (tap_state self.new)) }
        ensures counts { AfterOpen handle_named least
            (tap_state self.old) (tap_state self.new) result }
        // It fails only if no such look was supplied. What was supplied stays.
        ensures lacks { OnErr result (LacksLookAt (looks_of self.old) file least) }
        ensures needs { OnErr result (self.old.failed ≡ false
            → self.new.need ≡ Some (Need.Look file least)) }
        ensures supplies { KeepsSupplies self.old self.new }
    {
        let opened = match self.look(file, least) {
            Some(look) => Ok(SuppliedHandle::of(look)),
            None => {
                self.lack(Need::Look { file, least });
                Err(OpenError::Failed)
            }
        };
        self.counters.count_open(least, &opened);
        opened
    }

    /// Answers from the last supplied look at the file.
    fn newest(&mut self, file: u32, least: u32) -> Result<u32, Failed>
        ensures real { IfOk result (IsReal supplied_files file) }
        ensures least { IfOk result (λ g. least ≤ g) }
        ensures cause { IfErr result (λ _.
            Rises (tap_state self.old).faults (tap_state self.new).faults) }
        ensures counts { AfterNewest file (tap_state self.old) (tap_state self.new) result }
        // It fails only if no such look was supplied. What was supplied stays.
        ensures lacks { OnErr result (LacksLookAt (looks_of self.old) file least) }
        ensures needs { OnErr result (self.old.failed ≡ false
            → self.new.need ≡ Some (Need.Look file least)) }
        ensures supplies { KeepsSupplies self.old self.new }
    {
        let newest = match self.look(file, least) {
            Some(look) => Ok(look.generation),
            None => {
                self.lack(Need::Look { file, least });
                Err(Failed)
            }
        };
        self.counters.count_newest(file, newest);
        newest
    }

    /// Answers with supplied bytes of the handle's generation. They are `Gone` if a newer
    /// generation was supplied.
    #[tactic(auto, using(tex_world::proofs::TapLemmas::read_cause))]
    fn read_at(&mut self, h: &mut SuppliedHandle, at: u64, buf: &mut [u8]) -> Result<(), ReadError>
        requires { at + length buf.old ≤ (handle_named h.old).len }
        ensures bytes { OnOk result (ForSome
            (supplied_files.held (handle_named h.old).file (handle_named h.old).generation)
            (λ bytes. EachIndex buf.new (λ k.
            slice_index buf.new k ≡ slice_index bytes (at + k)))) }
        ensures handle { handle_named h.new ≡ handle_named h.old }
        ensures cause { IfErr result (ReadCause supplied_files (handle_named h.old)
            (tap_state self.old) (tap_state self.new)) }
        ensures counts { AfterRead (tap_state self.old) (tap_state self.new) result }
        // It fails only if the bytes were not supplied, or a newer generation was. What was supplied
        // stays.
        ensures unread { IfErr result (IsUnread self.old (handle_named h.old).file
            (LacksPartAt (parts_of self.old) (handle_named h.old) at (length buf.old))) }
        ensures needs { IfErr result (λ e. IsFault e → self.old.failed ≡ false → self.new.need
            ≡ Some (bytes_needed (handle_named h.old) at (length buf.old))) }
        ensures keeps { KeepsBytes self.old self.new }
        ensures looks { KeepsLooks self.old self.new }
    {
        let read = self.take_bytes(h, at, buf);
        self.counters.count_read(read);
        read
    }

    /// Like `read_at`, for rows. If they were not supplied, all of them are needed.
    #[tactic(auto, using(tex_world::proofs::TapLemmas::read_cause))]
    fn read_rows(
        &mut self,
        h: &mut SuppliedHandle,
        at: u64,
        stride: u64,
        row: usize,
        buf: &mut [u8],
    ) -> Result<(), ReadError>
        requires { AreRows at stride row (length buf.old) (handle_named h.old).len }
        ensures bytes { OnOk result (ForSome
            (supplied_files.held (handle_named h.old).file (handle_named h.old).generation)
            (λ bytes. HoldsRows bytes at stride row buf.new)) }
        ensures handle { handle_named h.new ≡ handle_named h.old }
        ensures cause { IfErr result (ReadCause supplied_files (handle_named h.old)
            (tap_state self.old) (tap_state self.new)) }
        ensures counts { AfterRead (tap_state self.old) (tap_state self.new) result }
        // It fails only if the rows were not supplied, or a newer generation was. What was supplied
        // stays.
        ensures unread { IfErr result (IsUnread self.old (handle_named h.old).file
            (LacksRowsAt (rows_of self.old) (rows_at (handle_named h.old) at stride row)
            (length buf.old))) }
        ensures needs { IfErr result (λ e. IsFault e → self.old.failed ≡ false → self.new.need
            ≡ Some (Need.Rows (rows_at (handle_named h.old) at stride row) (length buf.old))) }
        ensures keeps { KeepsBytes self.old self.new }
        ensures looks { KeepsLooks self.old self.new }
    {
        let rows = RowsAt {
            file: h.file(),
            generation: h.generation(),
            at,
            stride,
            row: row as u64,
        };
        let read = self.take_rows(h, rows, buf);
        self.counters.count_read(read);
        read
    }
}

impl SuppliedTap {
    /// Copies supplied bytes of the handle's generation. They are `Gone` if a newer generation was
    /// supplied. If they are missing, they are needed.
    fn take_bytes(&mut self, h: &SuppliedHandle, at: u64, buf: &mut [u8]) -> Result<(), ReadError>
        requires { at + length buf.old ≤ (handle_named h.now).len }
        ensures bytes { OnOk result (ForSome
            (supplied_files.held (handle_named h.now).file (handle_named h.now).generation)
            (λ bytes. EachIndex buf.new (λ k.
            slice_index buf.new k ≡ slice_index bytes (at + k)))) }
        ensures newer { IfErr result (NamesNewer supplied_files (handle_named h.now)) }
        ensures state { tap_state self.new ≡ tap_state self.old }
        ensures unread { IfErr result (IsUnread self.old (handle_named h.now).file
            (LacksPartAt (parts_of self.old) (handle_named h.now) at (length buf.old))) }
        ensures needs { IfErr result (λ e. IsFault e → self.old.failed ≡ false → self.new.need
            ≡ Some (bytes_needed (handle_named h.now) at (length buf.old))) }
        ensures keeps { KeepsBytes self.old self.new }
        ensures looks { KeepsLooks self.old self.new }
    {
        self.stay(h)?;
        if self.fill(h, at, buf) {
            return Ok(());
        }
        self.lack_bytes(h, at, buf.len());
        Err(ReadError::Failed)
    }

    /// Like `take_bytes`, for rows.
    fn take_rows(
        &mut self,
        h: &SuppliedHandle,
        rows: RowsAt,
        buf: &mut [u8],
    ) -> Result<(), ReadError>
        requires { rows ≡ rows_at (handle_named h.now) rows.at rows.stride rows.row }
        ensures rows { OnOk result (AreTrueRows rows buf.new) }
        ensures newer { IfErr result (NamesNewer supplied_files (handle_named h.now)) }
        ensures state { tap_state self.new ≡ tap_state self.old }
        ensures unread { IfErr result (IsUnread self.old (handle_named h.now).file
            (LacksRowsAt (rows_of self.old) rows (length buf.old))) }
        ensures needs { IfErr result (λ e. IsFault e → self.old.failed ≡ false → self.new.need
            ≡ Some (Need.Rows rows (length buf.old))) }
        ensures keeps { KeepsBytes self.old self.new }
        ensures looks { KeepsLooks self.old self.new }
    {
        self.stay(h)?;
        if self.fill_rows(&rows, buf) {
            return Ok(());
        }
        self.remember(h);
        self.lack(Need::Rows {
            rows,
            size: buf.len() as u64,
        });
        Err(ReadError::Failed)
    }

    /// Succeeds unless a newer generation than the handle's was supplied. The error names it.
    fn stay(&self, h: &SuppliedHandle) -> Result<(), ReadError>
        ensures newer { IfErr result (NamesNewer supplied_files (handle_named h.now)) }
        ensures seen { IfErr result (IsUnread self.now (handle_named h.now).file ⊥) }
        ensures gone { IfErr result (λ e. IsFault e → ⊥) }
    {
        match self.look(h.file(), h.generation() + 1) {
            Some(look) => Err(ReadError::Gone(look.generation)),
            None => Ok(()),
        }
    }

    /// Records that `size` bytes of a handle's file are needed. The handle's generation and length
    /// are kept too, so that the repeated call can open the file again.
    fn lack_bytes(&mut self, h: &SuppliedHandle, at: u64, size: usize)
        requires inside { at + size ≤ h.now.len }
        ensures needs { self.old.failed ≡ false
            → self.new.need ≡ Some (bytes_needed (handle_named h.now) at size) }
        ensures state { tap_state self.new ≡ tap_state self.old }
        ensures bytes { KeepsBytes self.old self.new }
        ensures looks { KeepsLooks self.old self.new }
    {
        self.remember(h);
        self.lack(Need::Bytes {
            file: h.file(),
            generation: h.generation(),
            at,
            least: size as u64,
            most: h.len() - at,
        });
    }

    /// Keeps the handle's generation and length, if none are kept and memory is there.
    fn remember(&mut self, h: &SuppliedHandle)
        ensures state { tap_state self.new ≡ tap_state self.old }
        ensures bytes { KeepsBytes self.old self.new }
        ensures looks { KeepsLooks self.old self.new }
        ensures need { self.new.need ≡ self.old.need }
    {
        if self.look(h.file(), h.generation()).is_some() {
            return;
        }
        if let Err(_refused) = self.looks.push(h.look()) {}
    }
}
