//! An image of 4 by 4 texels with three levels, whose fetch records which texels are asked for.

use std::alloc::{AllocError, Global};
use texel_filter::Fetch;

/// The 16-bit value of a channel of a texel: 257 times 16 * y + x in the first channel of level 0,
/// and the means of these in the levels after it.
fn value((level, x, y): (u32, u32, u32), c: u32) -> u16 {
    match (level, x, y) {
        _ if c > 0 => 0,
        (0, _, _) => 257 * (y.wrapping_mul(16).wrapping_add(x) % 256) as u16,
        (1, 0, 0) => 2313,
        (1, _, 0) => 2827,
        (1, 0, _) => 10537,
        (1, _, _) => 11051,
        _ => 6682,
    }
}

/// Why a texel is not fetched.
#[derive(Clone, Copy, Debug, PartialEq, Eq)]
pub(crate) enum Refused {
    /// It was the one planned to fail.
    Here,
    /// Out of memory for the record.
    NoMemory,
}

/// The texels that were asked for, and the number of the call that fails.
#[derive(Drop)]
pub(crate) struct Asked {
    pub visits: Vec<(u32, u32, u32)>,
    pub fails: usize,
}

impl Asked {
    /// A source of texels whose call number `fails`, counted from 1, fails.
    pub(crate) fn new(alloc: Global, fails: usize) -> Asked {
        Asked {
            visits: Vec::new(alloc),
            fails,
        }
    }

    fn write_down(&mut self, visit: (u32, u32, u32)) -> Result<(), AllocError> {
        self.visits.push(visit)?;
        Ok(())
    }
}

impl Fetch for Asked {
    ghost use Rattle.std.specs.Prelude.{refl, None, ⊤};
    ghost use Rattle.request_tests.specs.Sides.{halving_sizes};

    type Error = Refused;

    ghost sizes = { λ a. halving_sizes 3 4 4 };

    ghost values = { λ _. None };

    ghost leaves = { λ a _ b. ⊤ };

    ghost refuses = { λ a _ _ b. ⊤ };

    fn levels(&self) -> u32 {
        3
    }

    fn size(&self, level: u32) -> (u32, u32) {
        ((4 >> level).max(1), (4 >> level).max(1))
    }

    fn texel(&mut self, level: u32, x: u32, y: u32, out: &mut [u16]) -> Result<(), Refused> {
        if self.visits.len() + 1 == self.fails {
            out.fill(12345);
            return Err(Refused::Here);
        }
        if let Err(_full) = self.write_down((level, x, y)) {
            return Err(Refused::NoMemory);
        }
        for (c, channel) in out.iter_mut().enumerate() {
            *channel = value((level, x, y), c as u32);
        }
        Ok(())
    }

    ghost lawful = { record {
      same_sizes = λ s t at h. refl;
      same_values = λ s t at h. refl;
      sizes_refused = λ s t at e h. refl;
      values_refused = λ s t at e h. refl;
    } };
}
