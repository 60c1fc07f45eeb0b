//! A folder with the sample files.
ghost use Rattle.std.specs.Prelude.{◌≡◌, IfOk, IfErr, IsOk};
ghost use Rattle.tex_world.specs.Tap.{IsNew};
ghost use Rattle.tex_world.specs.Folder.{IsNewFolder, EnterCause, AfterEnter, AfterTap, AfterBack};
ghost use Rattle.sample_folder.specs.SampleFolder.{sample_tap, sample_folder};
ghost use Rattle.sample_folder.specs.SampleLaws.{sample_is_lawful};

use crate::sample_files::SampleFiles;
use crate::sample_tap::SampleTap;
use std::alloc::Global;
use tex_world::{EnterError, FileTable, Folder, NoMemory, TableWorld, World, number_of};

/// A folder with the sample files, under any path. The world is modelled. No call fails and no file
/// changes; only memory for the path can run out.
#[derive(Debug, Drop)]
pub struct SampleFolder {
    entered: Option<String>,
    made: u64,
    returned: u64,
}

impl SampleFolder {
    /// A folder that has not been entered.
    pub fn new() -> SampleFolder
        ensures { IsNewFolder (sample_folder result) }
    {
        SampleFolder {
            entered: None,
            made: 0,
            returned: 0,
        }
    }
}

impl Folder for SampleFolder {
    type W = TableWorld<SampleFiles>;

    type Tap = SampleTap;

    ghost state = { sample_folder };

    /// Keeps a copy of the path, which is allocated.
    fn enter(&mut self, alloc: Global, path: &str) -> Result<(), EnterError>
        ensures cause { IfErr result (EnterCause ⟦<TableWorld<SampleFiles> as World>⟧.files
            (sample_folder self.old) (sample_folder self.new)) }
        ensures after { AfterEnter path.now (sample_folder self.old) (sample_folder self.new)
            result }
        ensures err { IfErr result (λ e. e ≡ EnterError.NoMemory) }
    {
        self.entered = None;
        match String::from_str(alloc, path) {
            Ok(kept) => {
                self.entered = Some(kept);
                Ok(())
            }
            Err(_) => Err(EnterError::NoMemory),
        }
    }

    fn count(&self) -> u32 {
        match &self.entered {
            Some(_) => SampleFiles::count(),
            None => 0,
        }
    }

    fn find(&self, name: &str) -> Option<u32> {
        match &self.entered {
            Some(_) => number_of::<SampleFiles>(name),
            None => None,
        }
    }

    /// Allocates nothing.
    fn tap(&mut self, _alloc: Global) -> Result<SampleTap, NoMemory>
        ensures new { IfOk result (λ t. IsNew (sample_tap t)) }
        ensures after { AfterTap (sample_folder self.old) (sample_folder self.new) result }
        ensures answers { IsOk result }
    {
        self.made = self.made.saturating_add(1);
        Ok(SampleTap::new())
    }

    fn back(&mut self, _tap: SampleTap) {
        self.returned = self.returned.saturating_add(1);
    }

    ghost lawful = { sample_is_lawful };
}
