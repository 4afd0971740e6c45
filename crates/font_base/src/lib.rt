//! Big-endian scalars, arrays and table headers, and 24-bit integers.
//!
//! ```text
//! u16::read(&[0x01, 0x00])                              // Some(256)
//! Int24::new(-2).to_be_bytes()                          // [0xFF, 0xFF, 0xFE]
//! TableDataRef::<SampleHeader>::new(bytes)?.header()    // decoded from the first six bytes
//! ```
#![tactic(auto)]

mod array;
mod big_endian;
mod facts;
mod int24;
mod raw;
mod strided;
mod table_data;
mod uint24;

pub use array::{ScalarArray, ScalarArrayIter};
pub use big_endian::BigEndian;
pub use int24::Int24;
pub use raw::{BeByteArray, ByteChunks, FixedSize, IdentityEq, Scalar, SplitsBytes};
pub use strided::ByteRecords;
pub use table_data::{SampleHeader, TableDataRef, TableHeader};
pub use uint24::{TryFromUint24Error, Uint24};
