ghost use Rattle.std.specs.Prelude.{IfOk, MatchOption};
ghost use Rattle.hg_section.specs.Section.{IsRead, IsRefused};

use bridge_text::NoMemory;
use hg_bundle::{Arrivals, BundleFault, read_into};
use hg_store::HgStore;
use shared_text::{Text, again};
use state_part::SharedPart;
use std::alloc::Global;

// What a bundle brings over nothing; `None` exactly where it is refused. Texts that stand whole in it are parts of it.
pub fn read_bundle(alloc: Global, bytes: &Text) -> Result<Option<(HgStore, Arrivals)>, NoMemory>
    ensures { IfOk result (λ found. MatchOption found (IsRefused bytes.now) (λ read. IsRead bytes.now read.0 read.1)) }
{
    let mut source = SharedPart::new(again(bytes)?);
    match read_into(alloc, &mut source, HgStore::new(alloc)) {
        Ok(read) => Ok(Some(read)),
        Err(BundleFault::Refused(_)) => Ok(None),
        Err(BundleFault::Memory) => Err(NoMemory),
        Err(BundleFault::Read) => unreachable!(),
    }
}
