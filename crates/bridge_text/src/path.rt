ghost use Rattle.std.specs.Prelude.{◌≡◌, ◌&&◌, not, nat_le, length};
ghost use Rattle.std.specs.List.{list_all};
ghost use Rattle.text_model.specs.Text.{has_byte};
ghost use Rattle.text_model.specs.Path.{components, is_fit_component, is_fit_path, is_fit_name};

use crate::cut::cut_at;
use crate::limits::{COMPONENT_LIMIT, PATH_LIMIT};

/// Whether both sides can hold a file of this path. A fit path has 1 to 4,096 bytes, none of
/// them NUL, LF or CR, and at most 256 components between its slashes, none of them empty,
/// `.`, `..`, `.git` or `.hg`.
#[tactic(auto, unfolding(text_model::specs::Path::is_fit_path))]
pub fn fit_path(path: &[u8]) -> bool
    ensures { result ≡ is_fit_path path.now }
{
    !path.is_empty() && path.len() <= PATH_LIMIT && has_fit_bytes(path) && has_fit_components(path)
}

/// Whether this is a fit path of one component.
pub fn fit_name(name: &[u8]) -> bool
    ensures { result ≡ is_fit_name name.now }
{
    fit_path(name) && !name.contains(&b'/')
}

fn has_fit_bytes(path: &[u8]) -> bool
    ensures { result ≡ (not (has_byte 0 path.now) && not (has_byte 10 path.now) && not (has_byte 13 path.now)) }
{
    !path.contains(&b'\0') && !path.contains(&b'\n') && !path.contains(&b'\r')
}

fn is_fit_component(name: &[u8]) -> bool
    ensures { result ≡ is_fit_component name.now }
{
    !name.is_empty()
        && name != b".".as_slice()
        && name != b"..".as_slice()
        && name != b".git".as_slice()
        && name != b".hg".as_slice()
}

fn has_fit_components(path: &[u8]) -> bool
    ensures { result ≡ (nat_le (length (components path.now)) 256 && list_all is_fit_component (components path.now)) }
{
    let mut rest = path;
    let mut count: usize = 0;
    while let Some((name, after)) = cut_at(b'/', rest) {
        if !is_fit_component(name) {
            return false;
        }
        count += 1;
        rest = after;
    }
    is_fit_component(rest) && count < COMPONENT_LIMIT
}
