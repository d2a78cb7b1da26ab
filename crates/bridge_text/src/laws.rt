//! Laws of what this crate reads and writes. These functions do nothing when they run.
ghost use Rattle.std.specs.Prelude.{◌≡◌, ◌^◌, ◌<◌, ◌⊎◌, ℕ, Some, decimal};
ghost use Rattle.text_model.specs.Text.{Bytes, IsBytes, decimal_below};
ghost use Rattle.text_model.specs.Id.{Id, IsId, hex, id_of_hex, node_id};
ghost use Rattle.text_model.specs.Escape.{escape, IsEscapeOf, IsBadEscapeAt};

/// Bytes have one escape and a text is the escape of one list of bytes at most; of every text
/// either it is an escape, or it has one place where a byte can't stand, and never both.
pub fn escape_laws()
    ensures one { (raw other : Bytes) → IsBytes raw → IsBytes other → escape raw ≡ escape other → raw ≡ other }
    ensures either { (text : Bytes) → ((raw : Bytes) × IsEscapeOf text raw) ⊎ ((place : ℕ) × IsBadEscapeAt text place) }
    ensures not_both { (text raw : Bytes) (place : ℕ) → IsEscapeOf text raw → IsBadEscapeAt text place → ⊥ }
    ensures one_place { (text : Bytes) (place other : ℕ) → IsBadEscapeAt text place → IsBadEscapeAt text other → place ≡ other }
{}

/// What is written of a number below 2^64 reads as the number, and what reads as a number is
/// what is written of it.
pub fn decimal_laws()
    ensures again { (n : ℕ) → n < 2 ^ 64 → decimal_below (2 ^ 64) (decimal n) ≡ Some n }
    ensures takes { (text : Bytes) (n : ℕ) → decimal_below (2 ^ 64) text ≡ Some n → text ≡ decimal n }
{}

/// What is written of an id reads as the id, and what reads as an id is what is written of it.
pub fn hex_laws()
    ensures again { (id : Id) → IsId id → id_of_hex (hex id) ≡ Some id }
    ensures takes { (text : Bytes) (id : Id) → id_of_hex text ≡ Some id → IsId id × (text ≡ hex id) }
{}

/// The order of the parents is nothing to a node.
pub fn node_laws()
    ensures { (p q : Id) (text : Bytes) → node_id p q text ≡ node_id q p text }
{}
