//! Halves two rows of texels into one: each new sample is the average of four.

ghost use Rattle.std.specs.Prelude.{◌≡◌, ◌+◌, ◌*◌, ◌<◌, ◌≤◌, ℕ, length, slice_index};
ghost use Rattle.tiff_format.specs.Level.{halved};
ghost use Rattle.tile_layout.specs.Texel.{average, clamped};
ghost use Rattle.tile_store.specs.SampleRow.{top_of, bottom_of};
ghost use Rattle.half_rows.specs.Quarters.{row_sample, row_average, IsHalfAt};

use tile_store::TwoRows;

/// The average of four samples, rounded to nearest with halves up.
#[inline(always)]
fn average(a: u16, b: u16, c: u16, d: u16) -> u16
    ensures { result ≡ average a b c d }
{
    ((u32::from(a) + u32::from(b) + u32::from(c) + u32::from(d) + 2) / 4) as u16
}

/// Writes texel i, made from texels 2i and 2i + 1 of both rows.
#[inline(always)]
fn halve_texel(rows: &TwoRows<'_>, channels: usize, i: usize, out: &mut [u16])
    requires out { (i + 1) * channels ≤ length out.old }
    requires top { (2 * i + 2) * channels ≤ length (top_of rows.now) }
    requires bottom { (2 * i + 2) * channels ≤ length (bottom_of rows.now) }
    ensures long { length out.new ≡ length out.old }
    ensures each { (c : ℕ) → c < channels → row_sample channels out.new i c
        ≡ row_average channels (top_of rows.now) (bottom_of rows.now) (2 * i) (2 * i + 1) c }
    ensures before { (k : ℕ) → k < i * channels → slice_index out.new k ≡ slice_index out.old k }
{
    let (top, bottom) = (rows.top(), rows.bottom());
    let at = i * channels;
    let left = 2 * at;
    let right = left + channels;
    for c in 0..channels {
        out[at + c] = average(
            top.sample(left + c),
            top.sample(right + c),
            bottom.sample(left + c),
            bottom.sample(right + c),
        );
    }
}

/// Writes `count` texels, each made from two texels of both rows.
#[inline(always)]
fn halve_texels(rows: &TwoRows<'_>, count: usize, channels: usize, out: &mut [u16])
    requires out { length out.old ≡ count * channels }
    requires top { 2 * count * channels ≤ length (top_of rows.now) }
    requires bottom { 2 * count * channels ≤ length (bottom_of rows.now) }
    ensures long { length out.new ≡ length out.old }
    ensures each { (i c : ℕ) → i < count → c < channels → row_sample channels out.new i c
        ≡ row_average channels (top_of rows.now) (bottom_of rows.now) (2 * i) (2 * i + 1) c }
{
    for i in 0..count {
        halve_texel(rows, channels, i, out);
    }
}

/// Writes the single texel that is made from two rows of one texel each.
fn halve_single(rows: &TwoRows<'_>, channels: usize, out: &mut [u16])
    requires out { length out.old ≡ channels }
    requires top { channels ≤ length (top_of rows.now) }
    requires bottom { channels ≤ length (bottom_of rows.now) }
    ensures long { length out.new ≡ length out.old }
    ensures each { (c : ℕ) → c < channels → slice_index out.new c
        ≡ row_average channels (top_of rows.now) (bottom_of rows.now) 0 0 c }
{
    let (upper, lower) = (rows.top(), rows.bottom());
    for c in 0..channels {
        let (top, bottom) = (upper.sample(c), lower.sample(c));
        out[c] = average(top, top, bottom, bottom);
    }
}

/// Writes one row made from two rows of `width` texels. Rows of bytes are a case of their own, so
/// that the loops of both cases are compiled to vector code.
fn halve_row(rows: &TwoRows<'_>, width: usize, channels: usize, out: &mut [u16])
    requires some { 1 ≤ width }
    requires out { length out.old ≡ halved width * channels }
    requires top { length (top_of rows.now) ≡ width * channels }
    requires bottom { length (bottom_of rows.now) ≡ width * channels }
    ensures long { length out.new ≡ length out.old }
    ensures each { (i c : ℕ) → i < halved width → c < channels
        → IsHalfAt channels width (top_of rows.now) (bottom_of rows.now) out.new i c }
{
    let rows = *rows;
    if rows.has_bytes() {
        halve_kept(&rows, width, channels, out);
    } else {
        halve_kept(&rows, width, channels, out);
    }
}

/// Writes one row made from two rows that have the same sample size. Common numbers of channels are
/// cases of their own, so that their loops are unrolled.
#[inline(always)]
fn halve_kept(rows: &TwoRows<'_>, width: usize, channels: usize, out: &mut [u16])
    requires some { 1 ≤ width }
    requires out { length out.old ≡ halved width * channels }
    requires top { length (top_of rows.now) ≡ width * channels }
    requires bottom { length (bottom_of rows.now) ≡ width * channels }
    ensures long { length out.new ≡ length out.old }
    ensures each { (i c : ℕ) → i < halved width → c < channels
        → IsHalfAt channels width (top_of rows.now) (bottom_of rows.now) out.new i c }
{
    if width == 1 {
        return halve_single(rows, channels, out);
    }
    let count = width / 2;
    match channels {
        1 => halve_texels(rows, count, 1, out),
        2 => halve_texels(rows, count, 2, out),
        3 => halve_texels(rows, count, 3, out),
        4 => halve_texels(rows, count, 4, out),
        _ => halve_texels(rows, count, channels, out),
    }
}

/// Half of a row's width, rounded down, and at least 1.
fn half_width(width: usize) -> usize
    ensures { result ≡ halved width }
{
    (width / 2).max(1)
}

/// Writes one row made from two rows of `width` texels, from index `start` on.
pub fn halve_row_at(
    rows: &TwoRows<'_>,
    width: usize,
    channels: usize,
    start: usize,
    out: &mut [u16],
)
    requires some { 1 ≤ width }
    requires out { start + halved width * channels ≤ length out.old }
    requires top { length (top_of rows.now) ≡ width * channels }
    requires bottom { length (bottom_of rows.now) ≡ width * channels }
    ensures long { length out.new ≡ length out.old }
    ensures before { (k : ℕ) → k < start → slice_index out.new k ≡ slice_index out.old k }
    ensures each { (i c : ℕ) → i < halved width → c < channels
        → slice_index out.new (start + (i * channels + c)) ≡ row_average channels
        (top_of rows.now) (bottom_of rows.now) (clamped width (2 * i)) (clamped width (2 * i + 1))
        c }
    ensures behind { (k : ℕ) → start + halved width * channels ≤ k
        → slice_index out.new k ≡ slice_index out.old k }
{
    let size = half_width(width) * channels;
    halve_row(rows, width, channels, &mut out[start..start + size]);
}
