// Bytes, numbers of four bytes and lists of them, read from a byte string and written into one, and the kinds of records: document 01, "Records", and lists
// passed as bytes.
#![tactic(auto)]

ghost use Rattle.std.specs.Prelude.{◌≡◌, ◌+◌, ◌*◌, ◌/◌, ◌≤◌, ◌<◌, ◌++◌, length, take, drop};
ghost use Rattle.theory.specs.Lists.{filled};
ghost use Rattle.records.specs.Number.{number_at, four_bytes};
ghost use Rattle.records.specs.ListBytes.{numbers_in, bytes_of};

mod kind;

pub use kind::{Kind, UnknownKind};

// The number in the four bytes from a place on.
#[tactic(auto, using(crate::proofs::FourBytes::number_read))]
pub fn number_at(bytes: &[u8], at: usize) -> u32
    requires { at + 4 ≤ length bytes.now }
    ensures { result ≡ number_at at bytes.now }
{
    u32::from_be_bytes([bytes[at], bytes[at + 1], bytes[at + 2], bytes[at + 3]])
}

// Writes a number into the four bytes from a place on.
#[tactic(auto, unfolding(records::specs::Number::four_bytes))]
pub fn put_number(bytes: &mut [u8], at: usize, n: u32)
    requires { at + 4 ≤ length bytes.old }
    ensures { bytes.new ≡ take at bytes.old ++ four_bytes n ++ drop (at + 4) bytes.old }
{
    bytes[at..at + 4].copy_from_slice(&n.to_be_bytes());
}

// Writes bytes into a byte string from a place on.
pub fn put_bytes(bytes: &mut [u8], at: usize, part: &[u8])
    requires { at + length part.now ≤ length bytes.old }
    ensures { bytes.new ≡ take at bytes.old ++ part.now ++ drop (at + length part.now) bytes.old }
{
    // Byte by byte: where the library copies a caller's table into a caller's report, the compiler asks C for `memmove`; c/hibalunduk.h says that memcpy and memset do.
    for (j, &byte) in part.iter().enumerate() {
        bytes[at + j] = byte;
    }
}

// The numbers that bytes are, at the front of an array.
pub fn read_numbers(bytes: &[u8]) -> [u32; 24]
    requires { length bytes.now ≤ 96 }
    ensures result_value { take (length bytes.now / 4) result ≡ numbers_in bytes.now }
    ensures result_len { length result ≡ 24 }
{
    let mut numbers = [0u32; 24];
    for j in 0..bytes.len() / 4 {
        numbers[j] = number_at(bytes, 4 * j);
    }
    numbers
}

// Fills the front of a byte string with the bytes of numbers.
pub fn put_numbers(bytes: &mut [u8], numbers: &[u32])
    requires { 4 * length numbers.now ≤ length bytes.old }
    ensures { bytes.new ≡ filled (bytes_of numbers.now) bytes.old }
{
    for (j, number) in numbers.iter().enumerate() {
        put_number(bytes, 4 * j, *number);
    }
}
