ghost use Rattle.std.specs.Prelude.{◌≡◌, option_map};
ghost use Rattle.link_rule.specs.Form.{parts_of, three_of};

use bridge_text::cut_at;

/// The three parts of a link's value, which colons divide; `None` exactly where there are fewer or more.
pub fn three_parts(value: &[u8]) -> Option<(&[u8], &[u8], &[u8])>
    ensures { option_map (λ x. (x.0.now, x.1.now, x.2.now)) result ≡ three_of (parts_of value.now) }
{
    let (first, rest) = cut_at(b':', value)?;
    let (second, third) = cut_at(b':', rest)?;
    if cut_at(b':', third).is_some() {
        return None;
    }
    Some((first, second, third))
}
