//! Why lookups stopped, and how many were answered before.
ghost use Rattle.std.specs.Prelude.{◌≡◌, IfErr};
ghost use Rattle.texture_sys.specs.Asked.{whole};

/// An error of one of several lookups. The values of those before it stand.
#[derive(Clone, Copy, Debug, PartialEq, Eq, Drop)]
pub struct Stopped<E> {
    /// The generation that was looked up; 0 if the file could not be opened.
    pub generation: u32,
    /// How many lookups were answered: those before the one that failed.
    pub done: usize,
    /// Why it failed.
    pub error: E,
}

impl<E> From<E> for Stopped<E> {
    ghost from_gives = { λ e s. s ≡ record { generation = 0; done = 0; error = e } };

    /// Nothing was answered.
    fn from(error: E) -> Stopped<E> {
        Stopped {
            generation: 0,
            done: 0,
            error,
        }
    }
}

impl<E> Stopped<E> {
    /// The error alone.
    pub fn into_error(self) -> E
        ensures { result ≡ self.error }
    {
        self.error
    }
}

/// The result of one lookup, before whose error nothing was answered.
#[inline(always)]
pub(crate) fn alone<E>(given: Result<(), E>) -> Result<(), Stopped<E>>
    ensures whole { whole result ≡ given }
    ensures none { IfErr result (λ s. s.done ≡ 0) }
{
    match given {
        Ok(()) => Ok(()),
        Err(error) => Err(Stopped {
            generation: 0,
            done: 0,
            error,
        }),
    }
}
