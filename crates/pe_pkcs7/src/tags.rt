//! Identifier octets of DER ([X.690](https://www.itu.int/rec/T-REC-X.690), 8.1.2): of the universal types that signatures
//! use, and of the tags `[n]` of their grammars.

pub const BOOLEAN: u8 = 0x01;

pub const INTEGER: u8 = 0x02;

pub const BIT_STRING: u8 = 0x03;

pub const OCTET_STRING: u8 = 0x04;

pub const OBJECT_IDENTIFIER: u8 = 0x06;

pub const ENUMERATED: u8 = 0x0A;

pub const UTC_TIME: u8 = 0x17;

pub const GENERALIZED_TIME: u8 = 0x18;
/// `SEQUENCE` and `SEQUENCE OF`, whose content is elements.
pub const SEQUENCE: u8 = 0x30;
/// `SET` and `SET OF`.
pub const SET: u8 = 0x31;
/// `[0]` where the content is elements: `EXPLICIT`, or `IMPLICIT` of a `SEQUENCE` or a `SET`.
pub const TAGGED_0: u8 = 0xA0;
/// `[1]`, the same.
pub const TAGGED_1: u8 = 0xA1;
/// `[3]`, the same.
pub const TAGGED_3: u8 = 0xA3;
/// `[0]` where the content is no elements: `IMPLICIT` of a string.
pub const TAGGED_STRING_0: u8 = 0x80;
/// `[1]`, the same.
pub const TAGGED_STRING_1: u8 = 0x81;
/// `[2]`, the same.
pub const TAGGED_STRING_2: u8 = 0x82;
