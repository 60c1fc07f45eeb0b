//! Why a call of the cache fails.
use file_table::{FileError, Unreadable};
use shard_gate::PinError;
use std::fmt::Debug;
use tex_world::NoMemory;
use thiserror::Error;
use tiff_format::TiffFault;

/// Why a call of the cache fails.
#[derive(Clone, Copy, Debug, PartialEq, Eq, Error)]
#[error_bound(B: Debug)]
pub enum CacheError<B> {
    /// The bytes of this generation have a fault.
    #[error("BadFile")]
    BadFile { generation: u32, fault: TiffFault },
    /// A cell of the file would take more than 33554432 bytes.
    #[error("TileTooLarge")]
    TileTooLarge { generation: u32 },
    /// The file has only this many levels.
    #[error("NoLevel")]
    NoLevel { generation: u32, levels: u32 },
    /// The texel is outside the level.
    #[error("Outside")]
    Outside { generation: u32 },
    /// The region has more than 1048576 texels.
    #[error("RegionTooLarge")]
    RegionTooLarge,
    /// The pass already holds four tiles.
    #[error("HoldsFull")]
    HoldsFull,
    /// The call used the generation `from`, and a newer one was met. Ask again.
    #[error("Again")]
    Again { from: u32, to: u32 },
    /// An I/O error. The tap's count of faults has risen.
    #[error("ReadFault")]
    ReadFault,
    /// Out of memory.
    #[error("NoMemory")]
    NoMemory,
    /// The waiter gave up on a lock.
    #[error("Busy")]
    Busy(B),
}

impl<B> From<NoMemory> for CacheError<B> {
    ghost use Rattle.std.specs.Prelude.{◌≡◌};
    ghost use Rattle.tile_source.specs.declared.error.CacheError.TheVariants.{NoMemory};

    ghost from_gives = { λ _ e. e ≡ NoMemory };

    fn from(_e: NoMemory) -> CacheError<B> {
        CacheError::NoMemory
    }
}

impl<B> From<FileError<B>> for CacheError<B> {
    ghost use Rattle.std.specs.Prelude.{◌≡◌};
    ghost use Rattle.tile_source.specs.Cause.{of_file};

    ghost from_gives = { λ e refused. refused ≡ of_file e };

    fn from(e: FileError<B>) -> CacheError<B> {
        match e {
            FileError::ReadFault => CacheError::ReadFault,
            FileError::Again { from, to } => CacheError::Again { from, to },
            FileError::NoMemory => CacheError::NoMemory,
            FileError::Busy(busy) => CacheError::Busy(busy),
        }
    }
}

impl<B> From<PinError<B>> for CacheError<B> {
    ghost use Rattle.std.specs.Prelude.{◌≡◌};
    ghost use Rattle.tile_source.specs.Cause.{of_pin};

    ghost from_gives = { λ e refused. refused ≡ of_pin e };

    fn from(e: PinError<B>) -> CacheError<B> {
        match e {
            PinError::NoMemory => CacheError::NoMemory,
            PinError::Busy(busy) => CacheError::Busy(busy),
        }
    }
}

impl<B> From<Unreadable> for CacheError<B> {
    ghost use Rattle.std.specs.Prelude.{◌≡◌};
    ghost use Rattle.tile_source.specs.Cause.{of_unreadable};

    ghost from_gives = { λ e refused. refused ≡ of_unreadable e };

    fn from(e: Unreadable) -> CacheError<B> {
        match e {
            Unreadable::BadFile { generation, fault } => CacheError::BadFile { generation, fault },
            Unreadable::TileTooLarge { generation } => CacheError::TileTooLarge { generation },
        }
    }
}
