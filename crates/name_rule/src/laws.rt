//! Laws of these rules. These functions do nothing when they run.
ghost use Rattle.std.specs.Prelude.{◌≡◌, ◌≢◌, ◌==◌, ◌≤◌, ◌<◌, ◌^◌, ◌%◌, ◌↔◌, ◌++◌, ◌∷◌, [], ℤ, pos, ◌≤ℤ◌, unsigned_abs, FitsSigned, codes, Some, true, false};
ghost use Rattle.std.specs.Int.{w64};
ghost use Rattle.std.specs.List.{ends_with};
ghost use Rattle.text_model.specs.Text.{Bytes, lf, has_byte};
ghost use Rattle.git_model.specs.Commit.{has_angle, is_zone};
ghost use Rattle.pair_model.specs.User.{address_of, line_of_user, user_of_line, zone_of, tz_of_zone, message_of, description_of};

/// A user `N <E>`, with N nonempty and no bracket in either, has the name N and the email E. The
/// line of a user without LF has no LF.
pub fn line_laws()
    ensures named { (name email : Bytes) → name ≢ [] → has_angle name ≡ false → has_angle email ≡ false
        → address_of (name ++ codes " <" ++ email ++ codes ">") ≡ record { name = name; email = email } }
    ensures one_line { (user : Bytes) (time tz : ℤ) → FitsSigned w64 time
        → has_byte lf user ≡ false → has_byte lf (line_of_user user time tz) ≡ false }
{}

/// The user of a line isn't empty, and has no LF where the line has none. The time is from 0 to
/// 2^62, and the zone at most 362,340 seconds from UTC.
pub fn user_laws()
    ensures some { (line : Bytes) → (user_of_line line).user ≢ [] }
    ensures one_line { (line : Bytes) → has_byte lf line ≡ false → has_byte lf (user_of_line line).user ≡ false }
    ensures time { (line : Bytes) → (pos 0 ≤ℤ (user_of_line line).time) × ((user_of_line line).time ≤ℤ pos (2 ^ 62)) }
    ensures zone { (line : Bytes) → unsigned_abs (user_of_line line).tz ≤ 362340 }
{}

/// What is made of seconds is a zone, and of whole minutes below 100 hours it reads as these.
pub fn zone_laws()
    ensures zone { (tz : ℤ) → is_zone (zone_of tz) ≡ true }
    ensures again { (tz : ℤ) → unsigned_abs tz % 60 ≡ 0 → unsigned_abs tz < 360000 → tz_of_zone (zone_of tz) ≡ Some tz }
{}

/// A description returns from its message. A message returns from its description exactly where
/// it ends with an LF.
pub fn message_laws()
    ensures description { (description : Bytes) → description_of (message_of description) ≡ description }
    ensures message { (message : Bytes) → (message_of (description_of message) ≡ message) ↔ (ends_with ◌==◌ message (lf ∷ []) ≡ true) }
{}
