//! Areas written out by hand, and the records that they hold.

ghost use Rattle.std.specs.Prelude.{◌≡◌, [], ◌∷◌, Some};
ghost use Rattle.opfs_journal.specs.Format.{records_of};

use opfs_journal::Areas;

/// Format 2: the first record of an empty map, of generation 16, and one record of two bytes.
pub const FORMAT_2: [u8; 28] = [
    0xA5, 1, 0, 0, 0, 16, 0xA5, 2, 0, 0, 0, 7, 8, 0, // area 0
    0, 0, 0, 0, 0, 0, 0, 0, 0, 0, 0, 0, 0, 0, // area 1
];

/// Format 1: area 0 of generation 2 is overtaken by area 1 of generation 0, which has one record of one byte.
pub const FORMAT_1: [u8; 28] = [
    0xA5, 1, 0, 0, 0, 2, 0xA5, 1, 0, 0, 0, 9, 0, 0, // area 0
    0xA5, 2, 0, 0, 0, 0, 5, 0, 0, 0, 0, 0, 0, 0, // area 1
];

/// Two areas of 14 bytes.
pub fn areas_of_both() -> Areas
    ensures { result ≡ record { first = 0; bytes = 14 } }
{
    Areas {
        first: 0,
        bytes: 14,
    }
}

/// The bytes of the example in format 2, with what they hold.
pub fn format_2() -> [u8; 28]
    ensures { records_of (record { first = 0; bytes = 14 }) result ≡ Some (record { format = 2; records = [] ∷ (7 ∷ 8 ∷ []) ∷ [] }) }
{
    FORMAT_2
}

/// The bytes of the example in format 1, with what they hold.
pub fn format_1() -> [u8; 28]
    ensures { records_of (record { first = 0; bytes = 14 }) result ≡ Some (record { format = 1; records = (5 ∷ []) ∷ [] }) }
{
    FORMAT_1
}
