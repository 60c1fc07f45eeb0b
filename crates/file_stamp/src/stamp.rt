//! The stamp by which the program recognizes a file: its length and its time of change, in 44 bits.
ghost use Rattle.std.specs.Prelude.{◌≡◌, ◌<◌};
ghost use Rattle.file_stamp.specs.Stamp.{stamps, nanos_end, stamp_of_file};

/// The number of stamps: a stamp has 44 bits.
pub const STAMPS: u64 = 1 << 44;

/// The weight of a nanosecond in a stamp. It is a prime.
const NANO_WEIGHT: u128 = 1_000_003;

/// The stamp of a file with this length in bytes and this time of change in nanoseconds.
pub fn stamp_of(len: u64, nanos: u128) -> u64
    requires { nanos < nanos_end }
    ensures value { result ≡ stamp_of_file len nanos }
    ensures in_range { result < stamps }
{
    ((u128::from(len) + NANO_WEIGHT * nanos) % u128::from(STAMPS)) as u64
}
