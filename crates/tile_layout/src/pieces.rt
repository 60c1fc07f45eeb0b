//! Divides a rectangle into pieces.
ghost use Rattle.std.specs.Prelude.{◌≡◌, ◌<◌};
ghost use Rattle.tiff_format.specs.Shown.{shown};
ghost use Rattle.tile_layout.specs.Pieces.{LiesOn, walk_over};
ghost use Rattle.tile_layout.specs.Plane.{plane_level};

use crate::piece::Piece;
use crate::place::piece_at;
use std::marker::Model;
use tiff_format::{Dir, Rect};

/// The pieces of a rectangle in a plane of a level, row by row, from left to right.
///
/// A piece is as long as the rectangle and the row of its strip or tile allow. An empty rectangle
/// has none.
#[derive(Debug, Drop)]
pub struct Pieces<'a> {
    dir: &'a Dir,
    plane: u32,
    /// The rectangle, with no rows if it has no columns.
    rect: Rect,
    /// The next texel. It does not exist if y is past the last row.
    x: u32,
    y: u32,
}

impl<'a> Model for Pieces<'a> {
    ghost use Rattle.tiff_format.specs.Shown.{shown, shown_shape};
    ghost use Rattle.tile_layout.specs.Pieces.{Walk};
    ghost use Rattle.tile_layout.specs.Plane.{plane_level};
    ghost use Rattle.tile_layout.specs.Walk.{walk_at, IsWalk};

    ghost Value = { Walk };

    ghost view = { λ a. walk_at (plane_level (shown a.dir.now) a.plane) a.rect a.x a.y };

    ghost invariant = { λ a. IsWalk (shown_shape a.dir.now) a.plane a.rect a.x a.y };
}

impl<'a> Pieces<'a> {
    pub(crate) fn over(dir: &'a Dir, plane: u32, rect: Rect) -> Self
        requires plane { plane < dir.now.planes }
        requires on { LiesOn dir.now.width dir.now.height rect }
        ensures { result ≡ walk_over (plane_level (shown dir.now) plane) rect }
    {
        // a rectangle without columns has no pieces
        let rows = if rect.w == 0 { 0 } else { rect.h };
        Pieces {
            dir,
            plane,
            rect: Rect { h: rows, ..rect },
            x: rect.x,
            y: rect.y,
        }
    }
}

impl<'a> Iterator for Pieces<'a> {
    ghost use Rattle.std.specs.Prelude.{length};
    ghost use Rattle.std.specs.Iterator.{at_most};
    ghost use Rattle.tile_layout.specs.Pieces.{GivesPiece};

    type Item = Piece;

    ghost next_gives = { GivesPiece };

    ghost remaining = { λ walk. at_most (length walk.texels) };

    fn next(&mut self) -> Option<Piece> {
        if self.y == self.rect.y + self.rect.h {
            return None;
        }
        let right = self.rect.x + self.rect.w;
        let piece = piece_at(self.dir, self.plane, self.x, self.y, right);
        self.x += piece.n;
        if self.x == right {
            self.x = self.rect.x;
            self.y += 1;
        }
        Some(piece)
    }
}
