//! What the contracts say together.

ghost use Rattle.std.specs.Prelude.{◌≡◌, ◌+◌, ◌<◌, ◌≤◌, ◌%◌, ◌^◌, ◌++◌, ◌↔◌, ℕ, List, length, take, drop, Result, Ok};
ghost use Rattle.std.specs.Iterator.{Drains};
ghost use Rattle.pe_core.specs.Bytes.{AreBytes, range};
ghost use Rattle.pe_core.specs.Offsets.{StandAt};
ghost use Rattle.pe_pkcs7.specs.Fields.{first_element, elements_left, content_bytes, element_bytes};
ghost use Rattle.pe_pkcs7.specs.Names.{IsName, first_name_attribute, name_left};
ghost use Rattle.pe_pkcs7.specs.Signers.{signed_octets};
ghost use Rattle.pe_pkcs7.specs.Walks.{Items, ItemsLeft, HasOneList};
ghost use Rattle.pe_pkcs7.specs.declared.error.SignatureError.{SignatureError};
ghost use Rattle.pe_pkcs7.specs.declared.fields.Elements.{Elements};
ghost use Rattle.pe_pkcs7.specs.declared.name.NameAttribute.{NameAttribute};
ghost use Rattle.pe_pkcs7.specs.declared.name.NameAttributes.{NameAttributes};
ghost use Rattle.pe_pkcs7.specs.Der.{element_at};
ghost use Rattle.pe_pkcs7.specs.Later.{IsReadAt};
ghost use Rattle.pe_pkcs7.specs.Encoding.{AreOfElement, der, content_in, octets_in};
ghost use Rattle.pe_pkcs7.specs.declared.der.Element.{Element};

use crate::fields::Elements;
use crate::name::NameAttributes;

/// Nothing is taken from outside of the parent: an element that is read starts where it is looked for, and its content lies
/// after it, in the bytes up to the end of the parent.
#[tactic(auto, using(crate::proofs::Reading::within))]
pub fn elements_lie_in_their_parent()
    ensures { (b : List ℕ) (p : ℕ) (x : Element) → element_at b p ≡ Ok x →
        (x.offset ≡ p) × (p < x.content) × (x.content ≤ x.end) × (x.end ≤ length b) }
{}

/// What is read is what DER writes: the octets of an element that is read are its tag, the octets of the length of its content
/// in the shortest form, and the content; and an element has this tag and this content.
pub fn elements_are_written_by_der()
    ensures octets { (b : List ℕ) (p : ℕ) (x : Element) → AreBytes b → element_at b p ≡ Ok x →
        octets_in b x ≡ der x.tag (content_in b x) }
    ensures parts { (b : List ℕ) (p : ℕ) (x : Element) → element_at b p ≡ Ok x → AreOfElement x.tag (content_in b x) }
{}

/// What DER writes is read, whatever follows it, as an element of this tag and this content, where an element has them: by this
/// and the law before it an element has one reading, and one way to be written. A content of 4 GB and more, and a tag number
/// above 30, are not read.
pub fn written_elements_are_read()
    ensures { (b : List ℕ) (p tag : ℕ) (content rest : List ℕ) → AreBytes b → tag % 32 < 31 →
        AreOfElement tag content → length content < 2 ^ 32 → drop p b ≡ der tag content ++ rest →
        (x : Element) × (element_at b p ≡ Ok x) × (x.tag ≡ tag) × (content_in b x ≡ content) }
{}

/// What a caller hashes, of an element that is read in a part of the bytes. All of its octets, as of a certificate's part that is
/// signed, are what DER writes for its tag and content. The octets that a signer signs are the octets of the attributes as they
/// stand, under the tag 31h of a `SET` and not under `[0]`: tag, length and content (RFC 5652, 5.4). DER also sorts a `SET OF`,
/// which is not tested. The content, which `messageDigest` covers, is neither the tag nor the length.
#[tactic(auto, using(crate::proofs::Hashing::whole_of, crate::proofs::Hashing::with_other_tag))]
pub fn hashed_octets_are_written_by_der()
    ensures whole { (b : List ℕ) (e q : ℕ) (x : Element) → AreBytes b → element_at (take e b) q ≡ Ok x →
        element_bytes b x ≡ der x.tag (content_bytes b x) }
    ensures attributes { (b : List ℕ) (e q : ℕ) (x : Element) → AreBytes b → element_at (take e b) q ≡ Ok x →
        signed_octets b x ≡ der 0x31 (content_bytes b x) }
{}

/// The items of a walk through elements are those of its bytes, and every byte string has one list of them, from every offset
/// on: one reading of DER. The items of a walk through a name are its attributes, and every name has one list of them.
pub fn walks_return_the_list()
    ensures elements { (s : Elements) (xs : List (Result Element SignatureError)) →
        Drains ⟦<Elements<'static> as Iterator>⟧.next_gives s xs →
        ItemsLeft first_element (elements_left s) xs }
    ensures element { HasOneList first_element }
    ensures names { (s : NameAttributes) (xs : List (Result NameAttribute SignatureError)) →
        Drains ⟦<NameAttributes<'static> as Iterator>⟧.next_gives s xs →
        ItemsLeft first_name_attribute (name_left s) xs }
    ensures name { HasOneList first_name_attribute }
{}

/// The attributes of a name are those of the grammar: of each relative distinguished name in the order of the name, of each of them
/// its elements in their order, and nothing else. `b` are the bytes up to the end of the name, whose content starts at `p`.
#[tactic(auto, using(crate::proofs::NameLists::is_name, crate::proofs::NameLists::of_the_grammar))]
pub fn names_are_relative_distinguished_names()
    ensures { (b : List ℕ) (p : ℕ) (rdns : List (Result Element SignatureError))
        (all : List (Result NameAttribute SignatureError)) → Items first_element (b, p) rdns →
        IsName b rdns all ↔ Items first_name_attribute (record { name = b; end = 0; offset = p }) all }
{}

/// A signature reads the same wherever it stands: what is read of a file in which its bytes stand, up to their end and by the
/// offsets of the file, is what is read of them alone, each element and each error as many bytes further on: parts, walks over
/// elements, searches for an attribute, names. So is a part of bytes
/// that stand in a file, as the body in the entry of a certificate: the signature in a certificate that `attach` of pe_sign writes is
/// that of the certificate that it was given.
#[tactic(auto, using(crate::proofs::LaterSignatures::all_read))]
pub fn signatures_are_read_where_they_stand()
    ensures whole { (f b : List ℕ) (k : ℕ) → StandAt f k b → IsReadAt f b k }
    ensures part { (f b : List ℕ) (k p n : ℕ) → StandAt f k b → p + n ≤ length b →
        IsReadAt f (range b p n) (k + p) }
{}
