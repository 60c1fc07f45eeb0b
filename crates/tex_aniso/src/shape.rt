//! The ellipse of a pixel's footprint: its axes, on level 0 of an image.
ghost use Rattle.std.specs.Prelude.{◌≡◌, ℕ, ◌+◌, ◌^◌, ◌<◌, ◌≤◌, ◌+ℤ◌, ◌-ℤ◌, unsigned_abs};
ghost use Rattle.texel_filter.specs.Image.{IsSide};
ghost use Rattle.texel_filter.specs.Coordinate.{unit, rounded_down};
ghost use Rattle.tex_aniso.specs.Digits.{digits, magnitude};
ghost use Rattle.tex_aniso.specs.Shape.{IsEllipseRequest, steps_of, shift_of, shortened, shape_at};
ghost use Rattle.tex_aniso.specs.Shape.{shape_of, square_of, length_of, major_axis, minor_axis, IsShort};
ghost use Rattle.tex_aniso.specs.Shape.{IsShape};
ghost use Rattle.tex_aniso.specs.ShapeSteps.{AreWithin, request_digits, kept_digits};

use crate::ellipse_request::EllipseRequest;
use texel_filter::texels_from_edge;

// A texel's length.
const UNIT: u64 = 65536;

// Steps of more than 29 binary digits are shortened, so that the squares of sums of two fit.
const KEPT_DIGITS: u32 = 29;

/// The steps from a pixel to the next one to the right (x) and below (y), across (u) and down (v),
/// in 1/65536 of a texel.
#[derive(Clone, Copy, Debug, PartialEq, Eq)]
pub(crate) struct Steps {
    pub(crate) ux: i64,
    pub(crate) vx: i64,
    pub(crate) uy: i64,
    pub(crate) vy: i64,
}

impl Steps {
    /// Those of a request, on a level 0 of w by h.
    pub(crate) fn of(r: &EllipseRequest, w: u32, h: u32) -> Steps
        requires request { IsEllipseRequest r.now }
        requires width { IsSide w }
        requires height { IsSide h }
        ensures value { result ≡ steps_of r.now w h }
        ensures in_range { AreWithin request_digits result }
    {
        Steps {
            ux: texels_from_edge(r.dsdx, w),
            vx: texels_from_edge(r.dtdx, h),
            uy: texels_from_edge(r.dsdy, w),
            vy: texels_from_edge(r.dtdy, h),
        }
    }

    // By how many digits they are shortened.
    fn shift(&self) -> u32
        requires { AreWithin request_digits self.now }
        ensures value { result ≡ shift_of self.now }
        ensures few { result ≤ 20 }
        ensures enough { AreWithin (kept_digits + result) self.now }
    {
        let across = magnitude(self.ux).max(magnitude(self.vx));
        let down = magnitude(self.uy).max(magnitude(self.vy));
        digits(across.max(down)).saturating_sub(KEPT_DIGITS)
    }

    // These steps without their last `shift` binary digits.
    fn shortened(&self, shift: u32) -> Steps
        requires steps { AreWithin (kept_digits + shift) self.now }
        requires few { shift ≤ 20 }
        ensures value { result ≡ shortened shift self.now }
        ensures short { AreWithin kept_digits result }
    {
        Steps {
            ux: shorten(self.ux, shift),
            vx: shorten(self.vx, shift),
            uy: shorten(self.uy, shift),
            vy: shorten(self.vy, shift),
        }
    }
}

/// The sums and differences of the shortened steps, and the lengths q of (e, o) and r of (f, g).
#[derive(Clone, Copy, Debug, PartialEq, Eq)]
pub(crate) struct Shape {
    pub(crate) shift: u32,
    pub(crate) e: i64,
    pub(crate) f: i64,
    pub(crate) g: i64,
    pub(crate) o: i64,
    pub(crate) q: u64,
    pub(crate) r: u64,
}

impl Shape {
    /// That of a footprint with these steps.
    pub(crate) fn of(steps: &Steps) -> Shape
        requires { AreWithin request_digits steps.now }
        ensures value { result ≡ shape_of steps.now }
        ensures in_range { IsShape result }
    {
        let shift = steps.shift();
        Shape::at(shift, &steps.shortened(shift))
    }

    // That of shortened steps.
    fn at(shift: u32, steps: &Steps) -> Shape
        requires shift { shift ≤ 20 }
        requires short { AreWithin kept_digits steps.now }
        ensures value { result ≡ shape_at shift steps.now }
        ensures in_range { IsShape result }
    {
        let e = sum(steps.ux, steps.vy);
        let f = difference(steps.ux, steps.vy);
        let g = sum(steps.vx, steps.uy);
        let o = difference(steps.vx, steps.uy);
        Shape {
            shift,
            e,
            f,
            g,
            o,
            q: length_of(e, o),
            r: length_of(f, g),
        }
    }

    /// The longer axis, in 1/65536 of a texel, and a texel at least.
    pub(crate) fn major(&self) -> u64
        requires { IsShape self.now }
        ensures value { result ≡ major_axis self.now }
        ensures high { result ≤ 2 ^ 51 }
    {
        (((self.q + self.r) << self.shift) / 2).max(UNIT)
    }

    /// The shorter axis.
    pub(crate) fn minor(&self) -> u64
        requires { IsShape self.now }
        ensures value { result ≡ minor_axis self.now }
        ensures high { result ≤ major_axis self.now }
    {
        ((self.q.max(self.r) - self.q.min(self.r)) << self.shift) / 2
    }
}

/// A number without its last binary digits: rounded down.
#[inline(always)]
pub(crate) fn shorten(z: i64, shift: u32) -> i64
    requires { shift < 64 }
    ensures value { result ≡ rounded_down z (2 ^ shift) }
    ensures short { (j : ℕ) → magnitude z < 2 ^ (j + shift) → magnitude result < 2 ^ j }
{
    z >> shift
}

#[inline(always)]
fn sum(x: i64, y: i64) -> i64
    requires x { magnitude x < 2 ^ kept_digits }
    requires y { magnitude y < 2 ^ kept_digits }
    ensures value { result ≡ x +ℤ y }
    ensures short { IsShort result }
{
    x + y
}

#[inline(always)]
fn difference(x: i64, y: i64) -> i64
    requires x { magnitude x < 2 ^ kept_digits }
    requires y { magnitude y < 2 ^ kept_digits }
    ensures value { result ≡ x -ℤ y }
    ensures short { IsShort result }
{
    x - y
}

// How far a number lies from 0, or from -1 where it is negative.
#[inline(always)]
fn magnitude(z: i64) -> u64
    ensures { result ≡ magnitude z }
{
    if z < 0 { -(z + 1) as u64 } else { z as u64 }
}

/// The number of binary digits.
#[inline(always)]
pub(crate) fn digits(m: u64) -> u32
    ensures value { result ≡ digits m }
    ensures most { m < 2 ^ result }
{
    if m == 0 { 0 } else { m.ilog2() + 1 }
}

/// The root of the sum of two squares, rounded down.
pub(crate) fn length_of(x: i64, y: i64) -> u64
    requires x { IsShort x }
    requires y { IsShort y }
    ensures value { result ≡ length_of x y }
    ensures high { result < 2 ^ 31 }
    ensures x { unsigned_abs x ≤ result }
    ensures y { unsigned_abs y ≤ result }
{
    (square(x) + square(y)).isqrt()
}

fn square(z: i64) -> u64
    requires { IsShort z }
    ensures value { result ≡ square_of z }
    ensures high { result ≤ 2 ^ 60 }
{
    z.unsigned_abs() * z.unsigned_abs()
}
