//! The limits of files.

ghost use Rattle.std.specs.Prelude.{◌≡◌};

/// The most bytes of a file of numbers.
pub const MOST_BYTES: u64 = 4_194_304;
/// The most bytes of a certificate.
pub const MOST_CERTIFICATE_BYTES: u64 = 16_777_216;

/// The limits of a file, in numbers.
pub fn limits_in_numbers()
    ensures bytes { MOST_BYTES ≡ 4194304 }
    ensures certificate_bytes { MOST_CERTIFICATE_BYTES ≡ 16777216 }
{}
