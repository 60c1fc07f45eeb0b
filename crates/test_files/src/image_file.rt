//! Files that a test describes: one that is written out, and changes to it.

use crate::built::{chain, pages, tiled};
use crate::bytes::{HALF, SMALL, SMALL_BIG, WIDE, WIDE_BIG, WIDE_HALF};
use std::alloc::{AllocError, Global};
use std::test::Fail;

/// The file that the changes begin with.
#[derive(Clone, Copy)]
pub enum Base {
    /// 4 by 4, 8 bits, one channel, one strip at 122; texel (x, y) is 16 * y + x.
    Small,
    /// `Small`, highest byte first.
    SmallBig,
    /// `Small`, and a level of half its size with its strip at 204: 200, 201, 202, 203.
    TwoLevels,
    /// `Small` as BigTIFF.
    Wide,
    /// `Small` as BigTIFF, highest byte first.
    WideBig,
    /// `TwoLevels` as BigTIFF, with the second strip at 344.
    WideTwoLevels,
    /// 80 by 48, 16 bits, three channels, highest byte first, in tiles of 64 by 32; channel c of
    /// texel (x, y) is 20000 * c + 100 * y + x, and the padding is 65535.
    Tiled,
    /// Two pages of 100 by 80, with directories at 8 and 122 and strips at 236 and 8236.
    Pages,
    /// 18 levels of 131072 by 1 down to 1 by 1, each with its strip at 8.
    Chain,
}

/// A change to a file. Changes are made one after another.
#[derive(Clone, Copy)]
pub enum Edit {
    /// Replaces bytes from a place on.
    Put(usize, &'static [u8]),
    /// Appends a number of two bytes, lowest byte first, this many times.
    Append(u16, u32),
    /// Cuts the file after this many bytes, or extends it with zeros.
    Resize(usize),
}

/// A file of a test.
#[derive(Clone, Copy)]
pub struct ImageFile {
    pub name: &'static str,
    pub base: Base,
    pub edits: &'static [Edit],
}

/// Two directories with their strips, the second of which gets the place `next`.
fn joined(
    alloc: Global,
    first: &[u8],
    second: &[u8],
    (at, next): (usize, u8),
) -> Result<Vec<u8>, AllocError> {
    let mut file = Vec::from_slice(alloc, first)?;
    file.extend_from_slice(second)?;
    if let Some(place) = file.get_mut(at) {
        *place = next;
    }
    Ok(file)
}

fn base_bytes(alloc: Global, base: Base) -> Result<Vec<u8>, AllocError> {
    match base {
        Base::Small => Vec::from_slice(alloc, &SMALL),
        Base::SmallBig => Vec::from_slice(alloc, &SMALL_BIG),
        Base::TwoLevels => joined(alloc, &SMALL, &HALF, (118, 138)),
        Base::Wide => Vec::from_slice(alloc, &WIDE),
        Base::WideBig => Vec::from_slice(alloc, &WIDE_BIG),
        Base::WideTwoLevels => joined(alloc, &WIDE, &WIDE_HALF, (204, 228)),
        Base::Tiled => tiled(alloc),
        Base::Pages => pages(alloc),
        Base::Chain => chain(alloc),
    }
}

/// Replaces bytes from a place on.
fn put(file: &mut [u8], at: usize, bytes: &[u8]) -> Result<(), Fail> {
    if at > file.len() || bytes.len() > file.len() - at {
        return Err("a change past the end".into());
    }
    file[at..at + bytes.len()].copy_from_slice(bytes);
    Ok(())
}

fn append(file: &mut Vec<u8>, short: u16, count: u32) -> Result<(), AllocError> {
    for _ in 0..count {
        file.extend_from_slice(&short.to_le_bytes())?;
    }
    Ok(())
}

fn change(file: &mut Vec<u8>, edit: Edit) -> Result<(), Fail> {
    match edit {
        Edit::Put(at, bytes) => put(file, at, bytes),
        Edit::Append(short, count) => Ok(append(file, short, count)?),
        Edit::Resize(len) => Ok(file.resize(len, 0)?),
    }
}

impl ImageFile {
    /// The bytes of the file.
    pub fn bytes(&self, alloc: Global) -> Result<Vec<u8>, Fail> {
        let mut file = base_bytes(alloc, self.base)?;
        for edit in self.edits {
            change(&mut file, *edit)?;
        }
        Ok(file)
    }
}
