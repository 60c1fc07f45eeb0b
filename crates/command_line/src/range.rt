//! The ranges and defaults of numeric options.

ghost use Rattle.std.specs.Prelude.{◌≡◌, ◌≤◌, ◌<◌};
ghost use Rattle.std.specs.Option.{IfSome, option_map};
ghost use Rattle.command_line.specs.Range as spec;

use short_text::digits_number;
use tiff_format::{AUTOTILE_STEP, MAX_AUTOTILE};

/// The range of a numeric option, and its default.
#[derive(Clone, Copy, Debug, PartialEq, Eq)]
pub struct NumberRange {
    /// The least number.
    pub least: u64,
    /// The greatest number.
    pub most: u64,
    /// Every number must be a multiple of this.
    pub step: u64,
    /// The number if the option is not given.
    pub default: u64,
}

/// The number of workers that answer requests.
pub(crate) const WORKERS: NumberRange = NumberRange {
    least: 1,
    most: 16,
    step: 1,
    default: 4,
};

/// The most bytes of cached texels.
pub(crate) const BUDGET: NumberRange = NumberRange {
    least: 0,
    most: 4294967296,
    step: 1,
    default: 268435456,
};

/// The number of shards of the cache.
pub(crate) const SHARDS: NumberRange = NumberRange {
    least: 1,
    most: 64,
    step: 1,
    default: 16,
};

/// The number of idle files that are kept open.
pub(crate) const HANDLES: NumberRange = NumberRange {
    least: 1,
    most: 1024,
    step: 1,
    default: 100,
};

/// The side of the cells of a stripped level, in texels; 0 means that the level is a single cell.
pub(crate) const AUTOTILE: NumberRange = NumberRange {
    least: 0,
    most: MAX_AUTOTILE as u64,
    step: AUTOTILE_STEP as u64,
    default: 64,
};

/// The number of slots for parts of rows.
pub(crate) const SLOTS: NumberRange = NumberRange {
    least: 0,
    most: 65536,
    step: 1,
    default: 1024,
};

/// The number that a text spells, if it is in the range.
pub(crate) fn value_in_range(range: NumberRange, text: &str) -> Option<u64>
    requires { 0 < range.step }
    ensures value { result ≡ spec.value_in_range range text.now }
    ensures within { IfSome result (spec.Takes range) }
{
    let number = digits_number(text.as_bytes())?;
    if number < range.least || number > range.most || number % range.step != 0 {
        return None;
    }
    Some(number)
}

/// The number that a value spells, if it is in the range; the default if no value is given.
pub(crate) fn number_or_default(range: NumberRange, value: Option<&str>) -> Option<u64>
    requires step { 0 < range.step }
    requires default { spec.Takes range range.default }
    ensures value { result ≡ spec.number_or_default range (option_map (λ s. s.now) value.entry) }
    ensures within { IfSome result (spec.Takes range) }
{
    match value {
        None => Some(range.default),
        Some(text) => value_in_range(range, text),
    }
}
