//! Builds files: little-endian ones with several directories, all of them before the samples, and a
//! tiled one.

ghost use Rattle.std.specs.Prelude.{◌<◌, length};

use crate::bytes::TILED_HEAD;
use std::alloc::{AllocError, Global};

const SHORT: u16 = 3;

const LONG: u16 = 4;

/// The header, with the first directory at 8.
const HEADER: [u8; 8] = [0x49, 0x49, 0x2a, 0, 8, 0, 0, 0];

/// An entry: tag, type, number of values, and the value or its place.
type Entry = (u16, u16, u32, u32);

fn push_long(file: &mut Vec<u8>, value: u32) -> Result<(), AllocError> {
    file.extend_from_slice(&value.to_le_bytes())
}

/// Appends a directory with these entries, and the place of the next one.
fn push_directory(file: &mut Vec<u8>, entries: &[Entry], next: u32) -> Result<(), AllocError>
    requires { length entries.now < 100 }
{
    let count = entries.len() as u16;
    file.extend_from_slice(&count.to_le_bytes())?;
    for (tag, kind, count, value) in entries {
        file.extend_from_slice(&tag.to_le_bytes())?;
        file.extend_from_slice(&kind.to_le_bytes())?;
        push_long(file, *count)?;
        push_long(file, *value)?;
    }
    push_long(file, next)
}

/// Appends a directory of 114 bytes: 100 by 80, 8 bits, one channel, one strip.
fn push_page(file: &mut Vec<u8>, strip: u32, next: u32) -> Result<(), AllocError> {
    let entries = [
        (256, SHORT, 1, 100), // ImageWidth
        (257, SHORT, 1, 80), // ImageLength
        (258, SHORT, 1, 8), // BitsPerSample
        (259, SHORT, 1, 1), // Compression
        (262, SHORT, 1, 1), // BlackIsZero
        (273, LONG, 1, strip), // StripOffsets
        (277, SHORT, 1, 1), // SamplesPerPixel
        (278, SHORT, 1, 80), // RowsPerStrip
        (279, LONG, 1, 8000), // StripByteCounts
    ];
    push_directory(file, &entries, next)
}

/// Two pages, with directories at 8 and 122, and strips of 8000 bytes at 236 and 8236.
pub(crate) fn pages(alloc: Global) -> Result<Vec<u8>, AllocError> {
    let mut file = Vec::from_slice(alloc, &HEADER)?;
    push_page(&mut file, 236, 122)?;
    push_page(&mut file, 8236, 0)?;
    file.resize(16236, 7)?;
    Ok(file)
}

/// Levels of 131072 by 1 down to 1 by 1: 18 directories of 54 bytes, and zeros. Each level has one
/// strip at 8. The last directory leads back to the first.
pub(crate) fn chain(alloc: Global) -> Result<Vec<u8>, AllocError> {
    let mut file = Vec::from_slice(alloc, &HEADER)?;
    for level in 0..18u32 {
        let entries = [
            (256, LONG, 1, 131_072u32 >> level), // ImageWidth
            (257, SHORT, 1, 1), // ImageLength
            (258, SHORT, 1, 8), // BitsPerSample
            (273, LONG, 1, 8), // StripOffsets
        ];
        push_directory(
            &mut file,
            &entries,
            if level == 17 { 8 } else { 62 + 54 * level },
        )?;
    }
    file.resize(131_080, 0)?;
    Ok(file)
}

/// Channel c of texel (x, y) of the tiled file, or its padding.
fn tiled_sample(x: u16, y: u16, c: u16) -> u16 {
    if x < 80 && y < 48 && c < 3 {
        20000 * c + 100 * y + x
    } else {
        65535
    }
}

/// Appends a tile of 64 by 32 texels, given its first texel.
fn push_tile(file: &mut Vec<u8>, left: u16, top: u16) -> Result<(), AllocError> {
    for row in 0..32u16 {
        for column in 0..64u16 {
            for c in 0..3u16 {
                let sample = tiled_sample(left.wrapping_add(column), top.wrapping_add(row), c);
                file.extend_from_slice(&sample.to_be_bytes())?;
            }
        }
    }
    Ok(())
}

/// 80 by 48, 16 bits, three channels, big-endian, tiles of 64 by 32; channel c of texel (x, y) is
/// 20000 * c + 100 * y + x, and the padding is 65535.
pub(crate) fn tiled(alloc: Global) -> Result<Vec<u8>, AllocError> {
    let mut file = Vec::from_slice(alloc, &TILED_HEAD)?;
    for (left, top) in [(0, 0), (64, 0), (0, 32), (64, 32)] {
        push_tile(&mut file, left, top)?;
    }
    Ok(file)
}
