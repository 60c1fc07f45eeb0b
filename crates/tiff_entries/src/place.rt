//! A place in a file, with the form of the file's numbers.
ghost use Rattle.std.specs.Prelude.{◌≡◌, ◌+◌, ◌<◌, ◌^◌};

use tiff_format::Form;

/// A place in a file of this form.
#[derive(Clone, Copy)]
pub struct FilePlace {
    pub form: Form,
    pub at: u64,
}

impl FilePlace {
    /// The place `bytes` bytes further.
    pub fn behind(self, bytes: u64) -> FilePlace
        requires { self.at + bytes < 2 ^ 64 }
        ensures form { result.form ≡ self.form }
        ensures at { result.at ≡ self.at + bytes }
    {
        FilePlace {
            form: self.form,
            at: self.at + bytes,
        }
    }
}
