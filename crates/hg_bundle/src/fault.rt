// Why a bundle is refused.
ghost use Rattle.std.specs.Prelude.{◌≡◌};
ghost use Rattle.hg_bundle.specs.Faults.{bundle_fault, addition_fault_at, refused_for, IsReadFault};
ghost use Rattle.hg_bundle.specs.declared.fault.BundleFault.TheVariants.{Memory};

use bridge_text::{Fault, INPUT_LIMIT, Id, NoMemory, Refusal};
use hg_chunk::ChunkFault;
use hg_store::AddFault;
use std::alloc::AllocError;

/// Why no bundle was read.
#[derive(Clone, Copy, Debug, PartialEq, Eq)]
pub enum BundleFault {
    /// The bytes are refused: what is wrong, the revision of which it is wrong, and the offset in the input.
    Refused(Refusal),
    /// The source failed.
    Read,
    /// Memory ran out.
    Memory,
}

impl From<NoMemory> for BundleFault {
    ghost from_gives = { λ _ e. e ≡ Memory };

    fn from(_: NoMemory) -> BundleFault {
        BundleFault::Memory
    }
}

impl From<AllocError> for BundleFault {
    ghost from_gives = { λ _ e. e ≡ Memory };

    fn from(_: AllocError) -> BundleFault {
        BundleFault::Memory
    }
}

impl From<ChunkFault> for BundleFault {
    ghost from_gives = { λ fault e. e ≡ bundle_fault fault };

    fn from(fault: ChunkFault) -> BundleFault {
        match fault {
            ChunkFault::Read => BundleFault::Read,
            ChunkFault::Truncated(at) => refused(Fault::Truncated, Id::NULL, at),
            ChunkFault::Length(at) => refused(Fault::Length, Id::NULL, at),
            ChunkFault::Limit(at) => refused(Fault::Limit, Id::NULL, at),
            ChunkFault::Trailing(at) => refused(Fault::Trailing, Id::NULL, at),
            ChunkFault::Magic => refused(Fault::Magic, Id::NULL, 0),
            ChunkFault::OtherBundle => refused(Fault::OtherBundle, Id::NULL, 0),
            ChunkFault::InputLimit => refused(Fault::InputLimit, Id::NULL, INPUT_LIMIT),
            ChunkFault::Memory => BundleFault::Memory,
        }
    }
}

/// The bytes are refused for a fault of a revision, at an offset.
pub fn refused(fault: Fault, id: Id, place: u64) -> BundleFault
    ensures { result ≡ refused_for fault id place }
{
    BundleFault::Refused(Refusal { fault, id, place })
}

/// The fault of an entry that can't be added to a store.
pub fn addition_fault(fault: AddFault, id: Id, at: u64) -> BundleFault
    ensures value { result ≡ addition_fault_at fault id at }
    ensures names { IsReadFault result }
{
    match fault {
        AddFault::ParentOrder => refused(Fault::ParentOrder, id, at),
        AddFault::ParentUnknown => refused(Fault::ParentUnknown, id, at),
        AddFault::LinkUnknown => refused(Fault::LinkUnknown, id, at),
        AddFault::NodeWrong => refused(Fault::NodeWrong, id, at),
        AddFault::ChangesetShape => refused(Fault::ChangesetShape, id, at),
        AddFault::ManifestShape => refused(Fault::ManifestShape, id, at),
        AddFault::PathUnfit => refused(Fault::PathUnfit, id, at),
        AddFault::FileShape => refused(Fault::FileShape, id, at),
        AddFault::Collision => refused(Fault::Collision, id, at),
        AddFault::Memory => BundleFault::Memory,
    }
}
