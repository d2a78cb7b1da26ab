ghost use Rattle.std.specs.Prelude.{◌≡◌, IfOk};
ghost use Rattle.pair_model.specs.User.{message_of, description_of};

use bridge_text::{Bytes, NoMemory};
use std::alloc::Global;

/// The message of a description: it and one LF, which `git commit` sets behind a message too.
pub fn message_of_desc(alloc: Global, desc: &[u8]) -> Result<Bytes, NoMemory>
    ensures { IfOk result (λ message. message ≡ message_of desc.now) }
{
    let mut message = Vec::with_capacity(alloc, desc.len() + 1)?;
    message.extend_from_slice(desc)?;
    message.push(b'\n')?;
    Ok(Bytes::keep(message))
}

/// The description of a message: it without one last LF, where it ends with one.
pub fn desc_of_message(message: &[u8]) -> &[u8]
    ensures { result.now ≡ description_of message.now }
{
    if message.ends_with(b"\n") {
        &message[..message.len() - 1]
    } else {
        message
    }
}
