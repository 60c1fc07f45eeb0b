//! The texels of a tile.
use std::alloc::{AllocError, Global};
use std::test::Fail;
use test_files::{Checks, Untold};
use tiff_format::Rect;
use tile_layout::TileKey;
use tile_store::{SampleRow, Tile};

// Whether the texel is in the tile and has this sample.
fn has_sample(tile: &Tile<Untold>, (x, y, c): (u32, u32, u32), sample: u16) -> bool {
    let rect = tile.rect();
    if x < rect.x || y < rect.y || c >= tile.channels() {
        return false;
    }
    x - rect.x < rect.w && y - rect.y < rect.h && tile.texel(x, y, c) == sample
}

/// Whether the row has these samples.
pub(crate) fn is_row(row: &SampleRow<'_>, samples: &[u16]) -> bool {
    if row.count() != samples.len() {
        return false;
    }
    for k in 0..samples.len() {
        if row.sample(k) != samples[k] {
            return false;
        }
    }
    true
}

// Whether the tile has these texels of a row, with these samples.
fn has_row(tile: &Tile<Untold>, (x, y, n): (u32, u32, u32), samples: &[u16]) -> bool {
    let rect = tile.rect();
    if x < rect.x || y < rect.y || y - rect.y >= rect.h || n > rect.w {
        return false;
    }
    x - rect.x <= rect.w - n && is_row(&tile.row(x, y, n), samples)
}

static SAMPLES: [u16; 12] = [10, 11, 20, 21, 30, 31, 40, 41, 50, 51, 60, 61];

static BYTES: [u8; 12] = [10, 11, 20, 21, 30, 31, 40, 41, 50, 51, 60, 61];

// two rows of three texels, whose upper left texel is (8, 4)
const RECT: Rect = Rect {
    x: 8,
    y: 4,
    w: 3,
    h: 2,
};

// A tile with two samples per texel, of one byte each or two.
fn tile_of(alloc: Global, key: TileKey, has_bytes: bool) -> Result<Tile<Untold>, AllocError> {
    if has_bytes {
        Ok(Tile::of_bytes(key, RECT, 2, BYTES.to_vec(alloc)?))
    } else {
        Ok(Tile::new(key, RECT, 2, SAMPLES.to_vec(alloc)?))
    }
}

// Copies a row of the tile; zeros if it has no such row.
fn copied(tile: &Tile<Untold>, y: u32) -> [u16; 6] {
    let mut out = [0; 6];
    let rect = tile.rect();
    if rect.w != 3 || tile.channels() != 2 || y < rect.y || y - rect.y >= rect.h {
        return out;
    }
    let row = tile.row(rect.x, y, rect.w);
    if row.count() == out.len() {
        row.copy_to(&mut out);
    }
    out
}

#[test]
fn shows_its_texels_and_counts_two_bytes_a_sample(rt: HostRuntime) -> Result<(), Fail> {
    let mut checks = Checks::new();
    let key = TileKey::new(1, 2, 3, 4);
    for has_bytes in [false, true] {
        checks.case(if has_bytes {
            "a byte a sample"
        } else {
            "two bytes a sample"
        });
        let tile = tile_of(rt.alloc(), key, has_bytes)?;
        checks.holds("the key", tile.key() == key);
        checks.holds("has_bytes", tile.has_bytes() == has_bytes);
        checks.equal("channels", u64::from(tile.channels()), 2);
        checks.equal("bytes", tile.bytes(), 24);
        checks.holds("the first sample", has_sample(&tile, (8, 4, 0), 10));
        checks.holds("sample 1 of texel (9, 4)", has_sample(&tile, (9, 4, 1), 21));
        checks.holds("the last sample", has_sample(&tile, (10, 5, 1), 61));
        checks.holds(
            "a part of row 5",
            has_row(&tile, (9, 5, 2), &[50, 51, 60, 61]),
        );
        checks.holds("nothing of row 4", has_row(&tile, (8, 4, 0), &[]));
        checks.samples(
            "row 4, copied",
            &copied(&tile, 4),
            &[10, 11, 20, 21, 30, 31],
        );
        checks.samples(
            "row 5, copied",
            &copied(&tile, 5),
            &[40, 41, 50, 51, 60, 61],
        );
    }
    checks.result()
}
