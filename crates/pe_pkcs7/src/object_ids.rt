//! Object identifiers that signatures have, as the octets of their content: each number of the identifier in groups of
//! seven bits ([X.690](https://www.itu.int/rec/T-REC-X.690), 8.19), and the numbers by which callers know them. A caller compares
//! others by `Element::content_is`. `tools/make_object_ids` writes this file.

ghost use Rattle.std.specs.Prelude.{◌≡◌, map};
ghost use Rattle.pe_pkcs7.specs.ObjectIds.{number_in, content_type_number, attribute_number, algorithm_number, name_number, extension_number};

// ---- content types, and types of what is signed

/// 1.2.840.113549.1.7.2. id-signedData: the content of a signature.
pub const SIGNED_DATA: [u8; 9] = [0x2A, 0x86, 0x48, 0x86, 0xF7, 0x0D, 0x01, 0x07, 0x02];

/// 1.2.840.113549.1.9.16.1.4. id-ct-TSTInfo: what a time-stamp token signs.
pub const TST_INFO: [u8; 11] = [
    0x2A, 0x86, 0x48, 0x86, 0xF7, 0x0D, 0x01, 0x09, 0x10, 0x01, 0x04,
];

/// 1.3.6.1.4.1.311.2.1.4. SPC_INDIRECT_DATA_OBJID: what Authenticode signs.
pub const SPC_INDIRECT_DATA: [u8; 10] = [
    0x2B, 0x06, 0x01, 0x04, 0x01, 0x82, 0x37, 0x02, 0x01, 0x04,
];

/// 1.3.6.1.4.1.311.2.1.15. SPC_PE_IMAGE_DATA_OBJID: of an image.
pub const SPC_PE_IMAGE_DATA: [u8; 10] = [
    0x2B, 0x06, 0x01, 0x04, 0x01, 0x82, 0x37, 0x02, 0x01, 0x0F,
];

const CONTENT_TYPES: [(u32, &[u8]); 8] = [
    (1, b"\x2A\x86\x48\x86\xF7\x0D\x01\x07\x01"), // DATA, 1.2.840.113549.1.7.1
    (2, &SIGNED_DATA),
    (3, &TST_INFO),
    (4, &SPC_INDIRECT_DATA),
    (5, &SPC_PE_IMAGE_DATA),
    (6, b"\x2B\x06\x01\x04\x01\x82\x37\x02\x01\x1E"), // SPC_SIP_INFO, 1.3.6.1.4.1.311.2.1.30
    (7, b"\x2B\x06\x01\x04\x01\x82\x37\x02\x01\x19"), // SPC_CAB_DATA, 1.3.6.1.4.1.311.2.1.25
    (8, b"\x2B\x06\x01\x04\x01\x82\x37\x0A\x01"), // CTL, 1.3.6.1.4.1.311.10.1
];

/// The number of a content type, by the octets of its object identifier. 0 without one.
#[tactic(auto, unfolding(crate::specs::ObjectIds::content_type_number))]
pub fn content_type_number(octets: &[u8]) -> u32
    ensures { result ≡ content_type_number octets.now }
{
    number_in(&CONTENT_TYPES, octets)
}

// ---- attributes of signers

/// 1.2.840.113549.1.9.3. contentType: the type of what is signed.
pub const CONTENT_TYPE: [u8; 9] = [0x2A, 0x86, 0x48, 0x86, 0xF7, 0x0D, 0x01, 0x09, 0x03];

/// 1.2.840.113549.1.9.4. messageDigest: the digest of what is signed.
pub const MESSAGE_DIGEST: [u8; 9] = [0x2A, 0x86, 0x48, 0x86, 0xF7, 0x0D, 0x01, 0x09, 0x04];

/// 1.2.840.113549.1.9.5. signingTime.
pub const SIGNING_TIME: [u8; 9] = [0x2A, 0x86, 0x48, 0x86, 0xF7, 0x0D, 0x01, 0x09, 0x05];

/// 1.2.840.113549.1.9.6. countersignature: a signer again.
pub const COUNTER_SIGNATURE: [u8; 9] = [0x2A, 0x86, 0x48, 0x86, 0xF7, 0x0D, 0x01, 0x09, 0x06];

/// 1.3.6.1.4.1.311.2.1.12. SPC_SP_OPUS_INFO_OBJID: of the program.
pub const SPC_SP_OPUS_INFO: [u8; 10] = [0x2B, 0x06, 0x01, 0x04, 0x01, 0x82, 0x37, 0x02, 0x01, 0x0C];

/// 1.3.6.1.4.1.311.2.4.1. szOID_NESTED_SIGNATURE: more signatures of the image.
pub const NESTED_SIGNATURE: [u8; 10] = [0x2B, 0x06, 0x01, 0x04, 0x01, 0x82, 0x37, 0x02, 0x04, 0x01];

/// 1.3.6.1.4.1.311.3.3.1. szOID_RFC3161_counterSign: a time-stamp token (RFC 3161).
pub const TIME_STAMP_TOKEN: [u8; 10] = [0x2B, 0x06, 0x01, 0x04, 0x01, 0x82, 0x37, 0x03, 0x03, 0x01];

const ATTRIBUTES: [(u32, &[u8]); 11] = [
    (101, &CONTENT_TYPE),
    (102, &MESSAGE_DIGEST),
    (103, &SIGNING_TIME),
    (104, &COUNTER_SIGNATURE),
    (105, b"\x2A\x86\x48\x86\xF7\x0D\x01\x09\x10\x02\x0C"), // SIGNING_CERTIFICATE, 1.2.840.113549.1.9.16.2.12
    (106, b"\x2A\x86\x48\x86\xF7\x0D\x01\x09\x10\x02\x0E"), // AA_TIME_STAMP_TOKEN, 1.2.840.113549.1.9.16.2.14
    (107, b"\x2A\x86\x48\x86\xF7\x0D\x01\x09\x10\x02\x2F"), // SIGNING_CERTIFICATE_V2, 1.2.840.113549.1.9.16.2.47
    (108, b"\x2B\x06\x01\x04\x01\x82\x37\x02\x01\x0B"), // SPC_STATEMENT_TYPE, 1.3.6.1.4.1.311.2.1.11
    (109, &SPC_SP_OPUS_INFO),
    (110, &NESTED_SIGNATURE),
    (111, &TIME_STAMP_TOKEN),
];

/// The number of an attribute, by the octets of its object identifier. 0 without one.
#[tactic(auto, unfolding(crate::specs::ObjectIds::attribute_number))]
pub fn attribute_number(octets: &[u8]) -> u32
    ensures { result ≡ attribute_number octets.now }
{
    number_in(&ATTRIBUTES, octets)
}

// ---- algorithms: of digests, of signatures, of keys

const ALGORITHMS: [(u32, &[u8]); 21] = [
    (201, b"\x2A\x86\x48\x86\xF7\x0D\x02\x05"), // MD5, 1.2.840.113549.2.5
    (202, b"\x2B\x0E\x03\x02\x1A"), // SHA1, 1.3.14.3.2.26
    (203, b"\x60\x86\x48\x01\x65\x03\x04\x02\x01"), // SHA256, 2.16.840.1.101.3.4.2.1
    (204, b"\x60\x86\x48\x01\x65\x03\x04\x02\x02"), // SHA384, 2.16.840.1.101.3.4.2.2
    (205, b"\x60\x86\x48\x01\x65\x03\x04\x02\x03"), // SHA512, 2.16.840.1.101.3.4.2.3
    (206, b"\x2A\x86\x48\x86\xF7\x0D\x01\x01\x01"), // RSA, 1.2.840.113549.1.1.1
    (207, b"\x2A\x86\x48\x86\xF7\x0D\x01\x01\x04"), // MD5_RSA, 1.2.840.113549.1.1.4
    (208, b"\x2A\x86\x48\x86\xF7\x0D\x01\x01\x05"), // SHA1_RSA, 1.2.840.113549.1.1.5
    (209, b"\x2A\x86\x48\x86\xF7\x0D\x01\x01\x0B"), // SHA256_RSA, 1.2.840.113549.1.1.11
    (210, b"\x2A\x86\x48\x86\xF7\x0D\x01\x01\x0C"), // SHA384_RSA, 1.2.840.113549.1.1.12
    (211, b"\x2A\x86\x48\x86\xF7\x0D\x01\x01\x0D"), // SHA512_RSA, 1.2.840.113549.1.1.13
    (212, b"\x2A\x86\x48\x86\xF7\x0D\x01\x01\x0A"), // RSA_PSS, 1.2.840.113549.1.1.10
    (213, b"\x2A\x86\x48\xCE\x3D\x02\x01"), // EC, 1.2.840.10045.2.1
    (214, b"\x2A\x86\x48\xCE\x3D\x04\x01"), // ECDSA_SHA1, 1.2.840.10045.4.1
    (215, b"\x2A\x86\x48\xCE\x3D\x04\x03\x02"), // ECDSA_SHA256, 1.2.840.10045.4.3.2
    (216, b"\x2A\x86\x48\xCE\x3D\x04\x03\x03"), // ECDSA_SHA384, 1.2.840.10045.4.3.3
    (217, b"\x2A\x86\x48\xCE\x3D\x04\x03\x04"), // ECDSA_SHA512, 1.2.840.10045.4.3.4
    (218, b"\x2A\x86\x48\xCE\x38\x04\x01"), // DSA, 1.2.840.10040.4.1
    (219, b"\x2A\x86\x48\xCE\x38\x04\x03"), // DSA_SHA1, 1.2.840.10040.4.3
    (220, b"\x2B\x0E\x03\x02\x1D"), // SHA1_RSA_OIW, 1.3.14.3.2.29
    (221, b"\x2A\x86\x48\x86\xF7\x0D\x01\x01\x02"), // MD2_RSA, 1.2.840.113549.1.1.2
];

/// The number of an algorithm, by the octets of its object identifier. 0 without one.
#[tactic(auto, unfolding(crate::specs::ObjectIds::algorithm_number))]
pub fn algorithm_number(octets: &[u8]) -> u32
    ensures { result ≡ algorithm_number octets.now }
{
    number_in(&ALGORITHMS, octets)
}

// ---- attributes of names

const NAMES: [(u32, &[u8]); 16] = [
    (301, b"\x55\x04\x03"), // COMMON_NAME, 2.5.4.3
    (302, b"\x55\x04\x05"), // SERIAL_NUMBER, 2.5.4.5
    (303, b"\x55\x04\x06"), // COUNTRY, 2.5.4.6
    (304, b"\x55\x04\x07"), // LOCALITY, 2.5.4.7
    (305, b"\x55\x04\x08"), // STATE, 2.5.4.8
    (306, b"\x55\x04\x09"), // STREET, 2.5.4.9
    (307, b"\x55\x04\x0A"), // ORGANIZATION, 2.5.4.10
    (308, b"\x55\x04\x0B"), // ORGANIZATIONAL_UNIT, 2.5.4.11
    (309, b"\x55\x04\x0F"), // BUSINESS_CATEGORY, 2.5.4.15
    (310, b"\x55\x04\x11"), // POSTAL_CODE, 2.5.4.17
    (311, b"\x09\x92\x26\x89\x93\xF2\x2C\x64\x01\x19"), // DOMAIN_COMPONENT, 0.9.2342.19200300.100.1.25
    (312, b"\x09\x92\x26\x89\x93\xF2\x2C\x64\x01\x01"), // USER_ID, 0.9.2342.19200300.100.1.1
    (313, b"\x2A\x86\x48\x86\xF7\x0D\x01\x09\x01"), // EMAIL_ADDRESS, 1.2.840.113549.1.9.1
    (314, b"\x2B\x06\x01\x04\x01\x82\x37\x3C\x02\x01\x03"), // JURISDICTION_COUNTRY, 1.3.6.1.4.1.311.60.2.1.3
    (315, b"\x2B\x06\x01\x04\x01\x82\x37\x3C\x02\x01\x02"), // JURISDICTION_STATE, 1.3.6.1.4.1.311.60.2.1.2
    (316, b"\x2B\x06\x01\x04\x01\x82\x37\x3C\x02\x01\x01"), // JURISDICTION_LOCALITY, 1.3.6.1.4.1.311.60.2.1.1
];

/// The number of a name, by the octets of its object identifier. 0 without one.
#[tactic(auto, unfolding(crate::specs::ObjectIds::name_number))]
pub fn name_number(octets: &[u8]) -> u32
    ensures { result ≡ name_number octets.now }
{
    number_in(&NAMES, octets)
}

// ---- extensions of certificates

/// 2.5.29.15. what the key is for.
pub const KEY_USAGE: [u8; 3] = [0x55, 0x1D, 0x0F];

const EXTENSIONS: [(u32, &[u8]); 9] = [
    (401, b"\x55\x1D\x0E"), // SUBJECT_KEY_IDENTIFIER, 2.5.29.14
    (402, &KEY_USAGE),
    (403, b"\x55\x1D\x11"), // SUBJECT_ALT_NAME, 2.5.29.17
    (404, b"\x55\x1D\x13"), // BASIC_CONSTRAINTS, 2.5.29.19
    (405, b"\x55\x1D\x20"), // CERTIFICATE_POLICIES, 2.5.29.32
    (406, b"\x55\x1D\x23"), // AUTHORITY_KEY_IDENTIFIER, 2.5.29.35
    (407, b"\x55\x1D\x25"), // EXTENDED_KEY_USAGE, 2.5.29.37
    (408, b"\x55\x1D\x1F"), // CRL_DISTRIBUTION_POINTS, 2.5.29.31
    (409, b"\x2B\x06\x01\x05\x05\x07\x01\x01"), // AUTHORITY_INFORMATION_ACCESS, 1.3.6.1.5.5.7.1.1
];

/// The number of an extension, by the octets of its object identifier. 0 without one.
#[tactic(auto, unfolding(crate::specs::ObjectIds::extension_number))]
pub fn extension_number(octets: &[u8]) -> u32
    ensures { result ≡ extension_number octets.now }
{
    number_in(&EXTENSIONS, octets)
}

/// The number of the row with these octets. 0 without one.
fn number_in(rows: &[(u32, &[u8])], octets: &[u8]) -> u32
    ensures { result ≡ number_in (map (λ row. (row.0, row.1.now)) rows.now) octets.now }
{
    for i in 0..rows.len() {
        if octets == rows[i].1 {
            return rows[i].0;
        }
    }
    0
}
