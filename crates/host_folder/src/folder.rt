//! A folder of the file system.
ghost use Rattle.std.specs.Prelude.{◌≡◌, IfOk, string_bytes};
ghost use Rattle.std.specs.Arc.{arc_value};
ghost use Rattle.tex_world.specs.Tap.{IsNew};
ghost use Rattle.tex_world.specs.Folder.{IsNewFolder};
ghost use Rattle.host_folder.specs.RealTap.{tap_state};
ghost use Rattle.host_folder.specs.RealFolder.{folder_state, folder_is_lawful};

use crate::listing::Listing;
use crate::tap::RealTap;
use crate::world::RealWorld;
use std::alloc::{AllocError, Global};
use std::fs::{File, Files};
use std::sync::Arc;
use tex_world::{EnterError, Folder, NoMemory};

/// A folder of the file system. It is listed once, when it is entered.
#[derive(Drop)]
pub struct RealFolder<R> {
    rt: R,
    listing: Option<Arc<Listing>>,
    over: bool,
    faults: u64,
    moves: u64,
    made: u64,
    returned: u64,
}

impl<R> RealFolder<R> {
    /// A folder that has not been entered.
    pub fn new(rt: R) -> Self
        ensures { IsNewFolder (folder_state result) }
    {
        RealFolder {
            rt,
            listing: None,
            over: false,
            faults: 0,
            moves: 0,
            made: 0,
            returned: 0,
        }
    }
}

impl<R: Files<File = File> + AllocGlobal + Clone + Drop> RealFolder<R> {
    /// Lists the plain files of the folder with this path, for the taps to share.
    fn list(&self, alloc: Global, path: &str) -> Result<Arc<Listing>, EnterError>
        ensures { IfOk result (λ l. string_bytes (arc_value l).path ≡ path.now) }
    {
        let listing = Listing::of(&self.rt, alloc, path)?;
        Arc::new(alloc, listing).map_err(|_| EnterError::NoMemory)
    }

    /// Makes a tap for the listed files.
    fn new_tap(&self) -> Result<RealTap<R>, AllocError>
        ensures { IfOk result (λ t. IsNew (tap_state t)) }
    {
        let listing = match &self.listing {
            Some(listing) => Some(listing.clone()?),
            None => None,
        };
        Ok(RealTap::new(self.rt.clone()?, listing))
    }
}

impl<R: Files<File = File> + AllocGlobal + Clone + Drop> Folder for RealFolder<R> {
    type W = RealWorld;

    type Tap = RealTap<R>;

    ghost state = { folder_state };

    fn enter(&mut self, alloc: Global, path: &str) -> Result<(), EnterError> {
        self.listing = None;
        self.over = false;
        match self.list(alloc, path) {
            Ok(listing) => {
                self.listing = Some(listing);
                Ok(())
            }
            Err(EnterError::Failed) => {
                self.faults = self.faults.saturating_add(1);
                Err(EnterError::Failed)
            }
            Err(EnterError::TooMany) => {
                self.over = true;
                Err(EnterError::TooMany)
            }
            Err(EnterError::NoMemory) => Err(EnterError::NoMemory),
        }
    }

    fn count(&self) -> u32 {
        match &self.listing {
            Some(listing) => listing.len() as u32,
            None => 0,
        }
    }

    /// A binary search by name.
    fn find(&self, name: &str) -> Option<u32> {
        match &self.listing {
            Some(listing) => listing.find(name),
            None => None,
        }
    }

    fn tap(&mut self, _alloc: Global) -> Result<RealTap<R>, NoMemory> {
        let tap = self.new_tap()?;
        self.made = self.made.saturating_add(1);
        Ok(tap)
    }

    fn back(&mut self, tap: RealTap<R>) {
        self.faults = self.faults.saturating_add(tap.faults());
        self.moves = self.moves.saturating_add(tap.moves());
        self.returned = self.returned.saturating_add(1);
    }

    ghost lawful = { folder_is_lawful };
}
