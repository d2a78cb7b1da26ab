ghost use Rattle.std.specs.Prelude.{◌≡◌, ◌∷◌, ◌<◌, ◌≤◌, ◌↔◌, [], length, nat_eq, true, IsTrue};
ghost use Rattle.std.specs.Int.{w64, from_le_bytes};
ghost use Rattle.std.specs.Cmp.Lexicographic.{pointwise, nat_list_eq_equiv};
ghost use Rattle.std.specs.Cmp.{partial_equiv_from_equiv};
ghost use Rattle.std.specs.Cmp.Rules.{hashing};
ghost use Rattle.std.specs.List.{list_all};
ghost use Rattle.std.proofs.Common.{rules};
ghost use Rattle.text_model.specs.Text.{IsBytes};
ghost use Rattle.bridge_text.specs.Words.{word_of};
ghost use Rattle.text_model.specs.Id.{IsId, is_null, hex, is_hex_id, is_lower_digit, digit_value, bytes_of_digits, id_of_hex};

use std::hash::{Hash, Hasher};
use std::marker::Model;

/// The id of a Mercurial revision (its node) or of a Git object: the 20 bytes of a SHA-1.
/// Ids are ordered as their bytes.
#[derive(Clone, Copy, Debug, Eq, PartialOrd, Ord)]
pub struct Id {
    bytes: [u8; 20],
}

impl Model for Id {
    ghost use Rattle.std.specs.Prelude.{List, ℕ};
    ghost use Rattle.text_model.specs.Id.{IsId};

    ghost Value = { List ℕ };

    ghost view = { λ id. id.bytes };

    ghost invariant = { λ id. IsId id.bytes };

    ghost inverse = { λ bytes. record { bytes = bytes } };
}

impl Id {
    /// The null id, 20 zero bytes, which stands for none.
    pub const NULL: Id = Id { bytes: [0; 20] };

    /// The id of these bytes.
    pub fn new(bytes: [u8; 20]) -> Id
        ensures { result ≡ bytes }
    {
        Id {
            bytes: id_bytes(bytes.as_slice()),
        }
    }

    /// The bytes of the id.
    pub fn bytes(&self) -> [u8; 20]
        ensures bytes { result ≡ self.now }
        ensures id { IsId self.now }
    {
        self.bytes
    }

    /// Whether this is the null id.
    pub fn is_null(&self) -> bool
        ensures { result ≡ is_null self.now }
    {
        *self == Id::NULL
    }

    /// The id as 40 hex digits, in lower case. An id is 20 bytes.
    pub fn hex(&self) -> [u8; 40]
        ensures hex { result ≡ hex self.now }
        ensures id { IsId self.now }
    {
        let mut digits = [0; 40];
        hex::encode_to_slice(self.bytes.as_slice(), &mut digits).unwrap();
        digits
    }

    /// The id that 40 hex digits in lower case name; `None` for any other text.
    pub fn from_hex(text: &[u8]) -> Option<Id>
        ensures { result ≡ id_of_hex text.now }
    {
        if is_hex_id(text) {
            Some(Id::new(bytes_of_digits(text)))
        } else {
            None
        }
    }
}

// The twenty bytes of an id, from a slice of them.
fn id_bytes(raw: &[u8]) -> [u8; 20]
    requires { length raw.now ≡ 20 }
    ensures same { result ≡ raw.now }
    ensures bytes { IsBytes raw.now }
{
    let mut bytes = [0; 20];
    bytes.copy_from_slice(raw);
    bytes
}

// Three words, of which the last two overlap, cover the bytes: one byte at a time they would take twenty turns.
impl PartialEq for Id {
    ghost eq = { pointwise nat_eq };

    ghost laws = { partial_equiv_from_equiv nat_list_eq_equiv };

    fn eq(&self, other: &Id) -> bool {
        have_same_word(&self.bytes, &other.bytes, 0)
            & have_same_word(&self.bytes, &other.bytes, 8)
            & have_same_word(&self.bytes, &other.bytes, 12)
    }
}

// Whether two ids have the same eight bytes from a place on.
fn have_same_word(bytes: &[u8; 20], other: &[u8; 20], i: usize) -> bool
    requires { i ≤ 12 }
    ensures { IsTrue result ↔ word_of bytes.now i ≡ word_of other.now i }
{
    word_at(bytes, i) == word_at(other, i)
}

// The eight bytes from a place on as a number, the lowest first.
fn word_at(bytes: &[u8; 20], i: usize) -> u64
    requires { i ≤ 12 }
    ensures value { result ≡ from_le_bytes w64 (word_of bytes.now i) }
    ensures bytes { IsBytes (word_of bytes.now i) }
{
    u64::from_le_bytes([
        bytes[i],
        bytes[i + 1],
        bytes[i + 2],
        bytes[i + 3],
        bytes[i + 4],
        bytes[i + 5],
        bytes[i + 6],
        bytes[i + 7],
    ])
}

// The bytes are fed together: one at a time they would take twenty turns of the hash, which all tables of ids wait for.
impl Hash for Id {
    ghost hash_input = { λ id. id ∷ [] };

    ghost respects_eq = { Prim.search (hashing, rules) };

    fn hash<H: Hasher>(&self, state: &mut H) {
        state.write(self.bytes.as_slice());
    }
}

// The bytes that pairs of lower case digits name.
fn bytes_of_digits(text: &[u8]) -> [u8; 20]
    requires { is_hex_id text.now ≡ true }
    ensures { result ≡ bytes_of_digits text.now }
{
    let mut bytes = [0; 20];
    for i in 0..20 {
        bytes[i] = digit_value(text[2 * i]) * 16 + digit_value(text[2 * i + 1]);
    }
    bytes
}

// The value of a lower case digit. It is computed without a branch: the digits of ids are random, and a branch that is
// guessed wrong costs more than all else here.
fn digit_value(digit: u8) -> u8
    requires { is_lower_digit digit ≡ true }
    ensures value { result ≡ digit_value digit }
    ensures small { result < 16 }
{
    digit % 16 + 9 * (digit / 64)
}

fn is_hex_id(text: &[u8]) -> bool
    ensures { result ≡ is_hex_id text.now }
{
    text.len() == 40 && are_lower_digits(text)
}

fn are_lower_digits(text: &[u8]) -> bool
    ensures { result ≡ list_all is_lower_digit text.now }
{
    text.iter().all(|digit| is_lower_digit(*digit))
}

fn is_lower_digit(digit: u8) -> bool
    ensures { result ≡ is_lower_digit digit }
{
    (digit >= b'0' && digit <= b'9') || (digit >= b'a' && digit <= b'f')
}
