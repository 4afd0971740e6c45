//! Table versions.

ghost use Rattle.std.specs.Prelude.{◌≡◌, ◌≤◌, ◌^◌, ◌++◌, ◌&&◌, ◌↔◌, pos, nat_lt, min, Some, IsTrue};
ghost use Rattle.std.specs.Prelude.{◌++◌, refl};
ghost use lib.Chars.{codes};
ghost use Rattle.std.specs.Fmt.{WritesStyledOnOk};
ghost use Rattle.font_base.specs.Bytes.{bytes_of, numeral};
ghost use Rattle.font_base.specs.Scalar.Laws.{unsigned_newtype, unsigned_identity};
ghost use Rattle.font_tags.specs.Version.{version_bits, version_of, version_major, version_minor};
ghost use Rattle.font_tags.specs.Version.{packed_version, version_text, hex_text};
ghost use Rattle.font_tags.specs.Version.{major_minor_bytes, major_minor_of, IsCompatible};

use font_base::{FixedSize, IdentityEq, Scalar};
use font_decimal::Shortest;
use std::fmt;

/// A packed 32-bit version, as in `maxp`, `post` and `vhea`: the major number in the high 16 bits
/// and the minor number in the next four.
///
/// Equality compares all 32 bits.
///
/// ```
/// use font_types::{Compatible, Version16Dot16};
/// let version = Version16Dot16::new(0, 5);
/// assert_eq!(version.to_be_bytes(), [0, 0, 0x50, 0]);
/// assert!(version.compatible((0, 5)));
/// ```
#[derive(Clone, Copy, Default, PartialEq, Eq, PartialOrd, Ord, Hash)]
pub struct Version16Dot16(u32);

impl Version16Dot16 {
    /// Version 0.5.
    pub const VERSION_0_5: Self = Self(0x0000_5000);

    /// Version 1.0.
    pub const VERSION_1_0: Self = Self(0x0001_0000);

    /// Version 1.1.
    pub const VERSION_1_1: Self = Self(0x0001_1000);

    /// Version 2.0.
    pub const VERSION_2_0: Self = Self(0x0002_0000);

    /// Version 2.5.
    pub const VERSION_2_5: Self = Self(0x0002_5000);

    /// Version 3.0.
    pub const VERSION_3_0: Self = Self(0x0003_0000);

    /// Creates a version. A minor number above 9 counts as 9.
    ///
    /// ```
    /// use font_types::Version16Dot16;
    /// assert_eq!(Version16Dot16::new(2, 5), Version16Dot16::VERSION_2_5);
    /// assert_eq!(Version16Dot16::new(1, 12).to_major_minor(), (1, 9));
    /// ```
    pub const fn new(major: u16, minor: u16) -> Self
        ensures { version_bits result ≡ packed_version major minor }
    {
        let minor = if minor > 9 { 9 } else { minor };
        Self(major as u32 * 0x1_0000 + minor as u32 * 0x1000)
    }

    /// Returns the major and minor numbers. The minor number can be up to 15 unless the version was
    /// created by `new`.
    pub const fn to_major_minor(self) -> (u16, u16)
        ensures major { result.0 ≡ version_major self }
        ensures minor { result.1 ≡ version_minor self }
    {
        (
            (self.0 / 0x1_0000) as u16,
            (self.0 % 0x1_0000 / 0x1000) as u16,
        )
    }

    /// Returns the big-endian bytes.
    #[tactic(auto, using(font_base::proofs::StdBytes::std_bytes))]
    pub const fn to_be_bytes(self) -> [u8; 4]
        ensures { result ≡ bytes_of 4 (pos (version_bits self)) }
    {
        self.0.to_be_bytes()
    }
}

impl fmt::Display for Version16Dot16 {
    ghost output = { λ version.
        Some (version_text (version_major version) (version_minor version)) };

    ghost styled_output = { λ version _.
        Some (version_text (version_major version) (version_minor version)) };

    fn fmt<W: fmt::Write>(&self, f: &mut fmt::Formatter<W>) -> fmt::Result {
        let (major, minor) = self.to_major_minor();
        write_version(f, major, minor)
    }
}

// Writes a version, whatever options the formatter has.
fn write_version<W: fmt::Write>(f: &mut fmt::Formatter<W>, major: u16, minor: u16) -> fmt::Result
    ensures { WritesStyledOnOk W.write_str_gives f.old result (version_text major minor) f.new }
{
    f.write_str(Shortest::new(i64::from(major), 0).as_str())?;
    f.write_str(".")?;
    f.write_str(Shortest::new(i64::from(minor), 0).as_str())
}

impl fmt::Debug for Version16Dot16 {
    ghost debug_output = { λ version.
        Some (codes "Version16Dot16(" ++ hex_text (version_bits version) ++ codes ")") };

    fn fmt<W: fmt::Write>(&self, f: &mut fmt::Formatter<W>) -> fmt::Result {
        write!(f, "Version16Dot16({:08x})", self.0)
    }
}

impl FixedSize for Version16Dot16 {
    const RAW_BYTE_LEN: usize = 4;

    ghost RAW_BYTE_LEN = { 4 };
}

impl Scalar for Version16Dot16 {
    type Raw = [u8; 4];

    ghost is_scalar = { λ version. nat_lt (version_bits version) (2 ^ 32) };

    ghost of_raw = { λ raw. version_of (numeral raw) };

    ghost raw_of = { λ version. bytes_of 4 (pos (version_bits version)) };

    ghost laws = { unsigned_newtype 4 version_bits version_of (λ _. refl) (λ _. refl) };

    fn from_raw(raw: [u8; 4]) -> Version16Dot16 {
        Version16Dot16(u32::from_raw(raw))
    }

    fn to_raw(self) -> [u8; 4] {
        self.0.to_raw()
    }
}

impl IdentityEq for Version16Dot16 {
    ghost identity = { unsigned_identity version_bits version_of (λ _. refl) };
}

/// A version with 16-bit major and minor numbers.
///
/// ```
/// use font_types::{Compatible, MajorMinor};
/// let version = MajorMinor::new(1, 2);
/// assert!(version.compatible((1, 0)) && !version.compatible((1, 3)));
/// ```
#[derive(Clone, Copy, Debug, Default, PartialEq, Eq, PartialOrd, Ord, Hash)]
pub struct MajorMinor {
    /// The major number.
    pub major: u16,
    /// The minor number.
    pub minor: u16,
}

impl MajorMinor {
    /// Version 1.0.
    pub const VERSION_1_0: Self = MajorMinor { major: 1, minor: 0 };

    /// Version 1.1.
    pub const VERSION_1_1: Self = MajorMinor { major: 1, minor: 1 };

    /// Version 1.2.
    pub const VERSION_1_2: Self = MajorMinor { major: 1, minor: 2 };

    /// Version 1.3.
    pub const VERSION_1_3: Self = MajorMinor { major: 1, minor: 3 };

    /// Version 2.0.
    pub const VERSION_2_0: Self = MajorMinor { major: 2, minor: 0 };

    /// Creates a version.
    pub const fn new(major: u16, minor: u16) -> Self
        ensures major { result.major ≡ major }
        ensures minor { result.minor ≡ minor }
    {
        MajorMinor { major, minor }
    }

    /// Returns the big-endian bytes, the major number first.
    #[tactic(auto, using(font_base::proofs::StdBytes::std_bytes))]
    pub const fn to_be_bytes(self) -> [u8; 4]
        ensures { result ≡ bytes_of 2 (pos self.major) ++ bytes_of 2 (pos self.minor) }
    {
        let [a, b] = self.major.to_be_bytes();
        let [c, d] = self.minor.to_be_bytes();
        [a, b, c, d]
    }
}

impl fmt::Display for MajorMinor {
    ghost output = { λ version. Some (version_text version.major version.minor) };

    ghost styled_output = { λ version _. Some (version_text version.major version.minor) };

    fn fmt<W: fmt::Write>(&self, f: &mut fmt::Formatter<W>) -> fmt::Result {
        write_version(f, self.major, self.minor)
    }
}

impl FixedSize for MajorMinor {
    const RAW_BYTE_LEN: usize = 4;

    ghost RAW_BYTE_LEN = { 4 };
}

impl Scalar for MajorMinor {
    ghost use Rattle.font_tags.specs.Version.Laws.{major_minor_laws};

    type Raw = [u8; 4];

    ghost is_scalar = { λ version. nat_lt version.major (2 ^ 16) && nat_lt version.minor (2 ^ 16) };

    ghost of_raw = { major_minor_of };

    ghost raw_of = { major_minor_bytes };

    ghost laws = { major_minor_laws };

    fn from_raw(raw: [u8; 4]) -> MajorMinor {
        let [a, b, c, d] = raw;
        MajorMinor {
            major: u16::from_raw([a, b]),
            minor: u16::from_raw([c, d]),
        }
    }

    fn to_raw(self) -> [u8; 4] {
        let [a, b] = self.major.to_raw();
        let [c, d] = self.minor.to_raw();
        [a, b, c, d]
    }
}

impl IdentityEq for MajorMinor {
    ghost use Rattle.font_tags.specs.Version.Laws.{major_minor_identity};

    ghost identity = { major_minor_identity };
}

/// Compatibility of table versions.
///
/// # Laws
///
/// Rattle proves this of every implementation; rustc does not check it.
///
/// - `compatible` returns `true` if and only if the two versions are compatible as the
///   implementation defines it, and it does not panic.
///
/// ```
/// use font_types::{Compatible, MajorMinor};
/// let version = MajorMinor::new(1, 2);
/// assert!(version.compatible((1, 1)) && version.compatible(MajorMinor::VERSION_1_2));
/// assert!(!version.compatible((1, 3)) && !version.compatible((0, 2)));
/// ```
pub trait Compatible<Rhs>: Sized {
    // every field that a reader of the other version needs is present
    ghost is_compatible: { Self → Rhs → Type 0 };

    /// Returns `true` if the major numbers are equal and this minor number is at least the other's.
    fn compatible(&self, other: Rhs) -> bool
        ensures { IsTrue result ↔ is_compatible self.now other };
}

impl Compatible<Version16Dot16> for Version16Dot16 {
    ghost is_compatible = { λ version other. IsCompatible (version_major version)
        (version_minor version) (version_major other) (version_minor other) };

    fn compatible(&self, other: Version16Dot16) -> bool {
        let (major, minor) = self.to_major_minor();
        let (other_major, other_minor) = other.to_major_minor();
        major == other_major && minor >= other_minor
    }
}

/// A minor number above 9 counts as 9.
impl Compatible<(u16, u16)> for Version16Dot16 {
    ghost is_compatible = { λ version other.
        IsCompatible (version_major version) (version_minor version) other.0 (min other.1 9) };

    fn compatible(&self, other: (u16, u16)) -> bool {
        self.compatible(Version16Dot16::new(other.0, other.1))
    }
}

impl Compatible<MajorMinor> for MajorMinor {
    ghost is_compatible = { λ version other.
        IsCompatible version.major version.minor other.major other.minor };

    fn compatible(&self, other: MajorMinor) -> bool {
        self.major == other.major && self.minor >= other.minor
    }
}

impl Compatible<(u16, u16)> for MajorMinor {
    ghost is_compatible = { λ version other.
        IsCompatible version.major version.minor other.0 other.1 };

    fn compatible(&self, other: (u16, u16)) -> bool {
        self.compatible(MajorMinor::new(other.0, other.1))
    }
}

/// A version of one number is compatible if it is at least the other.
impl Compatible<u16> for u16 {
    ghost is_compatible = { λ version other. other ≤ version };

    fn compatible(&self, other: u16) -> bool {
        *self >= other
    }
}
