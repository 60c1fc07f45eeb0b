//! Describes one read of a file, so that plan entries can be compared with it.
ghost use Rattle.std.specs.Prelude.{◌≡◌};

/// A read of `count` rows of `row` bytes from one generation of a file. The first row is at `at`,
/// and each begins `stride` bytes after the one before.
#[derive(Clone, Copy)]
pub struct ReadRequest {
    pub file: u32,
    pub generation: u32,
    pub at: u64,
    pub stride: u64,
    pub row: u64,
    pub count: u64,
}

impl ReadRequest {
    ghost use Rattle.tex_world.specs.TapPlan.{is_in_rows, covers};

    /// Whether the byte that lies `behind` bytes after the first one is read.
    fn has(&self, behind: u64) -> bool
        ensures { result ≡ is_in_rows self.now behind }
    {
        let stride = self.stride.max(1);
        behind / stride < self.count && behind % stride < self.row
    }

    /// Whether the byte at `at` of a file is read.
    pub fn covers(&self, file: u32, at: u64) -> bool
        ensures { result ≡ covers self.now file at }
    {
        file == self.file && self.at <= at && self.has(at - self.at)
    }
}
