ghost use Rattle.std.specs.Prelude.{◌≡◌, ◌-◌, ◌<◌, pos, IsTrue};
ghost use Rattle.git_model.specs.Commit.{is_zone};
ghost use Rattle.text_model.specs.Text.{is_digit};
ghost use Rattle.pair_model.specs.User.{zone_of, zone_sign, two_digits, tz_of_zone, zone_size};

use git_object::is_zone;

/// The zone of seconds west of UTC: where they are whole minutes below 100 hours, `-` where it is
/// west of UTC, else `+`, two digits of hours and two of minutes; else `+0000`.
pub fn zone_of_tz(tz: i64) -> [u8; 5]
    ensures { result ≡ zone_of tz }
{
    let size = tz.unsigned_abs();
    if size % 60 == 0 && size < 360_000 {
        let [hours, hour] = two_digits(size / 3600);
        let [minutes, minute] = two_digits(size / 60 % 60);
        [zone_sign(tz), hours, hour, minutes, minute]
    } else {
        *b"+0000"
    }
}

fn zone_sign(tz: i64) -> u8
    ensures { result ≡ zone_sign tz }
{
    if tz > 0 { b'-' } else { b'+' }
}

fn two_digits(number: u64) -> [u8; 2]
    requires { number < 100 }
    ensures { result ≡ two_digits number }
{
    [b'0' + (number / 10) as u8, b'0' + (number % 10) as u8]
}

/// The seconds west of UTC of a zone; `None` where the five bytes aren't a sign and four digits.
/// The first two digits are hours, and the others minutes, which may be 60 and more.
pub fn tz_of_zone(zone: &[u8; 5]) -> Option<i64>
    ensures { result ≡ tz_of_zone zone.now }
{
    if !is_zone(zone) {
        return None;
    }
    let size = zone_size(zone);
    if zone[0] == b'-' {
        Some(size)
    } else {
        Some(-size)
    }
}

fn zone_size(zone: &[u8; 5]) -> i64
    requires { IsTrue (is_zone zone.now) }
    ensures { result ≡ pos (zone_size zone.now) }
{
    let hours = digit_of(zone[1]) * 10 + digit_of(zone[2]);
    let minutes = digit_of(zone[3]) * 10 + digit_of(zone[4]);
    hours * 3600 + minutes * 60
}

fn digit_of(byte: u8) -> i64
    requires { IsTrue (is_digit byte) }
    ensures value { result ≡ pos (byte - 48) }
    ensures small { byte - 48 < 10 }
{
    i64::from(byte - b'0')
}
