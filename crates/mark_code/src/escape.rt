// Words that are escapes, as values of their own.
ghost use Rattle.std.specs.Prelude.{◌≡◌, IfOk};
ghost use Rattle.text_model.specs.Text.{IsBytes};
ghost use Rattle.text_model.specs.Escape.{escape};
ghost use Rattle.mark_code.specs.Reading.{raw_of};

use bridge_text::{Bytes, NoMemory, TextFault, escape_into, unescape_into};
use std::alloc::Global;

/// The bytes whose escape a text is; `None` where it is the escape of none.
pub fn unescaped(alloc: Global, text: &[u8]) -> Result<Option<Bytes>, NoMemory>
    ensures { IfOk result (λ raw. raw ≡ raw_of text.now) }
{
    let mut raw = Vec::new(alloc);
    match unescape_into(&mut raw, text) {
        Ok(()) => Ok(Some(Bytes::keep(raw))),
        Err(TextFault::Shape(_)) => Ok(None),
        Err(TextFault::Memory) => Err(NoMemory),
    }
}

/// The escape of these bytes, as a value of its own.
pub fn escaped(alloc: Global, raw: &[u8]) -> Result<Bytes, NoMemory>
    ensures text { IfOk result (λ text. text ≡ escape raw.now) }
    ensures bytes { IsBytes raw.now }
{
    let mut text = Vec::new(alloc);
    escape_into(&mut text, raw)?;
    Ok(Bytes::keep(text))
}
