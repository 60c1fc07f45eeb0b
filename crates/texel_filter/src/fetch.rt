//! The source of texels that a lookup reads from.
ghost use Rattle.std.specs.Prelude.{◌≡◌, ℕ, ◌<◌, ◌≤◌, length, Option, OnOk, IfErr};
ghost use Rattle.std.specs.Option.{ForSome};
ghost use Rattle.texel_filter.specs.Image.{Sizes, Values, Texel, texel_of};
ghost use Rattle.texel_filter.specs.Image.{IsInside, IsSide, IsChannelCount, AreValues};
ghost use Rattle.texel_filter.specs.Square.{texels_of, HasSquare, AreCorners};
ghost use Rattle.texel_filter.specs.Calls.{LeftBy, IsFetch};

use crate::square::{Corners, Square};

/// The texels of an image with levels.
pub trait Fetch {
    /// Why a texel is refused. There is no other refusal.
    type Error;

    /// The levels and their sizes, which no call changes.
    ghost sizes: { Self → Sizes };

    /// The values of the texels, where they are told. No call changes them.
    ghost values: { Self → Option Values };

    /// What an answered `texel` leaves.
    ghost leaves: { Self → Texel → Self → Type 0 };

    /// What a refused `texel` leaves.
    ghost refuses: { Self → Texel → Self.Error → Self → Type 0 };

    /// The number of levels.
    fn levels(&self) -> u32
        ensures value { result ≡ (sizes self.now).levels }
        ensures some { 1 ≤ result };

    /// Width and height of a level.
    fn size(&self, level: u32) -> (u32, u32)
        requires { level < (sizes self.now).levels }
        ensures value { result ≡ ((sizes self.now).width level, (sizes self.now).height level) }
        ensures in_range { IsSide result.0 × IsSide result.1 };

    /// Writes the first channels of a texel to all places of the buffer.
    /// After a refusal what it holds is open.
    fn texel(&mut self, level: u32, x: u32, y: u32, out: &mut [u16]) -> Result<(), Self::Error>
        requires inside { IsInside (sizes self.old) (texel_of level x y) }
        requires channels { IsChannelCount (length out.old) }
        ensures told { ForSome (values self.old) (λ v.
            OnOk result (AreValues (v level x y) out.new)) }
        ensures ok { OnOk result (leaves self.old (texel_of level x y) self.new) }
        ensures err { IfErr result (λ e. refuses self.old (texel_of level x y) e self.new) };

    /// Writes the first channels of four texels to the corners, as four calls of `texel` do it in
    /// their order. An implementer that finds all four in one place may answer them at once, as
    /// values or as samples of 8 bits. One whose `texel` is to be inlined writes this body anew,
    /// with `#[inline(always)]` of its own.
    fn square(
        &mut self,
        square: &Square,
        channels: usize,
        out: &mut Corners,
    ) -> Result<(), Self::Error>
        requires inside { HasSquare (sizes self.old) square.now }
        requires channels { IsChannelCount channels }
        ensures told { ForSome (values self.old) (λ v.
            OnOk result (AreCorners v square.now channels out.new)) }
        ensures left { LeftBy leaves refuses self.old (texels_of square.now) self.new result }
    {
        let Square {
            level,
            left,
            right,
            top,
            bottom,
        } = *square;
        out.narrow = false;
        self.texel(level, left, top, &mut out.left_top[..channels])?;
        self.texel(level, right, top, &mut out.right_top[..channels])?;
        self.texel(level, left, bottom, &mut out.left_bottom[..channels])?;
        self.texel(level, right, bottom, &mut out.right_bottom[..channels])
    }

    /// No call changes the levels, their sizes or the values.
    ghost lawful: { IsFetch sizes values leaves refuses };
}
