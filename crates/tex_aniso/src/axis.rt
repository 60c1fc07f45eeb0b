//! Which way the longer axis of a footprint goes, and how far the coordinates go along it.
ghost use Rattle.std.specs.Prelude.{◌≡◌, ◌*◌, ◌^◌, ◌<◌, ◌≤◌, ◌+ℤ◌, ◌-ℤ◌, ◌*ℤ◌};
ghost use Rattle.std.specs.Prelude.{unsigned_abs, max};
ghost use Rattle.texel_filter.specs.Image.{IsSide};
ghost use Rattle.texel_filter.specs.Coordinate.{rounded_down};
ghost use Rattle.tex_aniso.specs.Shape.{IsShape, IsShort};
ghost use Rattle.tex_aniso.specs.ShapeSteps.{IsUpTo};
ghost use Rattle.tex_aniso.specs.Ellipse.{is_near};
ghost use Rattle.tex_aniso.specs.Axis.{axis_by, long_direction, direction_shift, shortened_direction};
ghost use Rattle.tex_aniso.specs.Axis.{direction_of, image_step, across_of, down_of};

use crate::shape::{Shape, digits, length_of, shorten};

const KEPT_DIGITS: u32 = 29;

const UNIT: i64 = 65536;

// 512 images.
const FARTHEST: u64 = 1 << 41;

/// A vector along the longer axis. Its length is of no account.
#[derive(Clone, Copy, Debug, PartialEq, Eq)]
pub(crate) struct Direction {
    pub(crate) x: i64,
    pub(crate) y: i64,
}

impl Direction {
    /// That of a shape that is not round.
    pub(crate) fn of(shape: &Shape) -> Direction
        requires shape { IsShape shape.now }
        requires q { 1 ≤ shape.now.q }
        requires r { 1 ≤ shape.now.r }
        ensures value { result ≡ direction_of shape.now }
        ensures x { IsShort result.x }
        ensures y { IsShort result.y }
        ensures some { 1 ≤ max (unsigned_abs result.x) (unsigned_abs result.y) }
    {
        Direction::long(shape).shortened()
    }

    fn long(shape: &Shape) -> Direction
        requires shape { IsShape shape.now }
        requires q { 1 ≤ shape.now.q }
        requires r { 1 ≤ shape.now.r }
        ensures value { result ≡ long_direction shape.now }
        ensures some { 1 ≤ max (unsigned_abs result.x) (unsigned_abs result.y) }
    {
        let c = difference(product(shape.e, shape.f), product(shape.o, shape.g));
        let d = sum(product(shape.e, shape.g), product(shape.f, shape.o));
        Direction::by(c, d, shape.q * shape.r)
    }

    // By the sums of products and the product of the lengths.
    fn by(c: i64, d: i64, m: u64) -> Direction
        requires c { IsUpTo c (2 ^ 61) }
        requires d { IsUpTo d (2 ^ 61) }
        requires some { 1 ≤ m }
        requires high { m < 2 ^ 62 }
        ensures value { result ≡ axis_by c d m }
        ensures some { 1 ≤ max (unsigned_abs result.x) (unsigned_abs result.y) }
    {
        let m = m as i64;
        if c >= 0 {
            Direction { x: c + m, y: d }
        } else {
            Direction { x: d, y: m - c }
        }
    }

    // It without its last binary digits.
    fn shortened(&self) -> Direction
        requires some { 1 ≤ max (unsigned_abs self.now.x) (unsigned_abs self.now.y) }
        ensures value { result ≡ shortened_direction self.now }
        ensures x { IsShort result.x }
        ensures y { IsShort result.y }
        ensures some { 1 ≤ max (unsigned_abs result.x) (unsigned_abs result.y) }
    {
        let longest = self.x.unsigned_abs().max(self.y.unsigned_abs());
        let shift = digits(longest).saturating_sub(KEPT_DIGITS);
        Direction {
            x: shorten(self.x, shift),
            y: shorten(self.y, shift),
        }
    }
}

fn product(x: i64, y: i64) -> i64
    requires x { IsShort x }
    requires y { IsShort y }
    ensures value { result ≡ x *ℤ y }
    ensures in_range { IsUpTo result (2 ^ 60) }
{
    x * y
}

fn difference(x: i64, y: i64) -> i64
    requires x { IsUpTo x (2 ^ 60) }
    requires y { IsUpTo y (2 ^ 60) }
    ensures value { result ≡ x -ℤ y }
    ensures in_range { IsUpTo result (2 ^ 61) }
{
    x - y
}

fn sum(x: i64, y: i64) -> i64
    requires x { IsUpTo x (2 ^ 60) }
    requires y { IsUpTo y (2 ^ 60) }
    ensures value { result ≡ x +ℤ y }
    ensures in_range { IsUpTo result (2 ^ 61) }
{
    x + y
}

/// How far the coordinates go from a probe to the next one, in 1/2^32 of the image.
#[derive(Clone, Copy, Debug, PartialEq, Eq)]
pub(crate) struct ImageStep {
    pub(crate) ds: i64,
    pub(crate) dt: i64,
}

impl ImageStep {
    /// Along a direction, on a level 0 of w by h. The step is in 1/65536 of a texel.
    pub(crate) fn along(v: &Direction, step: u64, w: u32, h: u32) -> ImageStep
        requires x { IsShort v.now.x }
        requires y { IsShort v.now.y }
        requires some { 1 ≤ max (unsigned_abs v.now.x) (unsigned_abs v.now.y) }
        requires short { step < 2 ^ 33 }
        requires width { IsSide w }
        requires height { IsSide h }
        ensures ds { result.ds ≡ across_of v.now step w }
        ensures dt { result.dt ≡ down_of v.now step h }
    {
        let long = length_of(v.x, v.y);
        ImageStep {
            ds: image_step(step, v.x, long, w),
            dt: image_step(step, v.y, long, h),
        }
    }
}

impl ImageStep {
    /// Whether the coordinates go 512 images far at most.
    pub(crate) fn is_near(&self) -> bool
        ensures { result ≡ is_near self.now.ds self.now.dt }
    {
        self.ds.unsigned_abs() <= FARTHEST && self.dt.unsigned_abs() <= FARTHEST
    }
}

// How far one coordinate goes in a step, on a side of `side` texels: in 1/2^32 of the image.
fn image_step(step: u64, part: i64, long: u64, side: u32) -> i64
    requires short { step < 2 ^ 33 }
    requires part { IsShort part }
    requires long { long < 2 ^ 31 }
    requires some { 1 ≤ long }
    requires within { unsigned_abs part ≤ long }
    requires side { IsSide side }
    ensures { result ≡ image_step step part long side }
{
    let texels = quotient(step as i64 * part, long as u32);
    quotient(UNIT * texels, side)
}

// A quotient that is rounded down.
fn quotient(z: i64, d: u32) -> i64
    requires { 1 ≤ d }
    ensures { result ≡ rounded_down z d }
{
    z.div_euclid(i64::from(d))
}
