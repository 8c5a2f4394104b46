//! A field of a message, as it lies in the message's bytes.

/// The greatest number that a field may be written with. A greater one is read.
pub const MAX_FIELD_NUMBER: u64 = 536_870_911;

/// The wire types of a key; groups, 3 and 4, have none here.
pub(crate) const VARINT: u64 = 0;

pub(crate) const EIGHT: u64 = 1;

pub(crate) const BYTES: u64 = 2;

pub(crate) const FOUR: u64 = 5;

/// A field: its number, where it begins, and its value.
#[derive(Clone, Copy, Debug, PartialEq, Eq)]
pub struct Field<'a> {
    /// The number, from 1 up.
    pub number: u64,
    /// Where its key begins, counted in bytes from the start of what was read.
    pub place: usize,
    /// The value, which ends where the next field begins.
    pub value: FieldValue<'a>,
}

/// A field's value by its wire type. Slices are those of the bytes that were read.
#[derive(Clone, Copy, Debug, PartialEq, Eq)]
pub enum FieldValue<'a> {
    /// Type 0: a number of up to 64 bits.
    Varint(u64),
    /// Type 1: eight bytes.
    Eight(&'a [u8]),
    /// Type 2: so many bytes as their length says: text, bytes or a message.
    Bytes(&'a [u8]),
    /// Type 5: four bytes.
    Four(&'a [u8]),
}
