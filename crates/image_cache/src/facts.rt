//! The size and the levels of a file.
ghost use Rattle.std.specs.Prelude.{◌≡◌, ◌<◌, IfOk, IfErr, IsOkAnd};
ghost use Rattle.tex_world.specs.World.{IsFile};
ghost use Rattle.file_table.specs.Calls.{LooksOnce, OpensIfAtAll};
ghost use Rattle.tile_source.specs.Pass.{IsPassOf};
ghost use Rattle.tile_source.specs.Pass.{KeepsAllBut, view_and_record};
ghost use Rattle.image_cache.specs.Facts.{info_of};
ghost use Rattle.image_cache.specs.Call.{IsOfLook, KeepsGiven, KeepsOne};
ghost use Rattle.tile_source.specs.Cause.{Never};
ghost use Rattle.image_cache.specs.Cause.{around, HasCause, InfoRefuses};

use crate::cache::Cache;
use file_table::Record;
use tex_world::{Tap, World};
use tiff_format::Info;
use tile_source::{CacheError, Pass};
use waiter::Waiter;

impl<T: Tap> Cache<T> {
    /// The width and height of level 0, the samples and their bits, and the number of levels:
    /// stored, and together with generated ones.
    pub fn info<V: Waiter>(
        &self,
        waiter: &V,
        pass: &mut Pass<T::W>,
        tap: &mut T,
        file: u32,
    ) -> Result<Info, CacheError<V::Busy>>
        requires pass { IsPassOf self.now pass.old }
        requires file { file < self.now.files.board.files }
        requires told { IsFile T.W.files file }
        ensures ok { IfOk result (λ info. KeepsGiven T.W.files file self.now.gate.cut
            pass.old pass.new info.generation (λ r. IsOkAnd r.layout (λ kept.
            info ≡ info_of r.generation kept r.cut))) }
        ensures as_new { IfOk result (λ info.
            IsOfLook file pass.old.view pass.new.view info.generation) }
        ensures cause { IfErr result (HasCause (around T.W.files file self.now.gate.cut
            pass.old pass.new (T.state tap.old) (T.state tap.new)) Never InfoRefuses) }
        // The state after the call.
        ensures latest { KeepsOne T.W.files file self.now.gate.cut pass.old pass.new
            (T.state tap.old) (T.state tap.new) }
        ensures same { KeepsAllBut view_and_record pass.old pass.new }
        ensures looks { LooksOnce file pass.old.view pass.new.view }
        ensures once { OpensIfAtAll (T.state tap.old) (T.state tap.new) }
    {
        let known = self.open(waiter, pass, tap, file)?;
        let answer = facts_in(&known);
        self.keep(pass, known);
        answer
    }
}

/// Reads these from the record of a file.
fn facts_in<W: World, B>(known: &Record<W>) -> Result<Info, CacheError<B>>
    ensures ok { IfOk result (λ info. IsOkAnd known.now.layout (λ kept.
        info ≡ info_of known.now.generation kept known.now.cut)) }
    ensures err { IfErr result (InfoRefuses known.now) }
{
    let generation = known.generation();
    match known.layout() {
        Ok(layout) => {
            let stored = layout.stored();
            let (width, height) = layout.size(0);
            Ok(Info {
                generation,
                width,
                height,
                channels: layout.channels(),
                depth: layout.depth(),
                stored,
                levels: known.levels(),
            })
        }
        Err(fault) => Err(CacheError::BadFile {
            generation,
            fault: *fault,
        }),
    }
}
