// The texts that are made of numbers.
ghost use Rattle.std.specs.Prelude.{◌≡◌, ◌<◌, ◌++◌, IfOk, codes, decimal};
ghost use Rattle.make_model.specs.History.{made_path, made_body};

use bridge_text::{Bytes, NoMemory, decimal_into};
use shared_text::{Text, keep};
use std::alloc::Global;

/// The path of a file of a directory, both by their numbers.
pub fn path_of(alloc: Global, directory: u64, file: u64) -> Result<Text, NoMemory>
    ensures { IfOk result (λ path. path ≡ made_path directory file) }
{
    let mut out = Vec::new(alloc);
    out.extend_from_slice(b"d")?;
    decimal_into(&mut out, directory)?;
    out.extend_from_slice(b"/f")?;
    decimal_into(&mut out, file)?;
    keep(out)
}

/// What a changeset with this number writes into its file.
pub fn body_of(alloc: Global, number: u64) -> Result<Bytes, NoMemory>
    ensures { IfOk result (λ body. body ≡ made_body number) }
{
    let mut out = Vec::new(alloc);
    decimal_into(&mut out, number)?;
    out.push(b'\n')?;
    Ok(Bytes::keep(out))
}

/// What is said of a changeset with this number.
pub fn description_of(alloc: Global, number: u64) -> Result<Bytes, NoMemory>
    ensures { IfOk result (λ text. text ≡ codes "c" ++ decimal number) }
{
    let mut out = Vec::new(alloc);
    out.extend_from_slice(b"c")?;
    decimal_into(&mut out, number)?;
    Ok(Bytes::keep(out))
}
