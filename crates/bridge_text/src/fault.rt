// What an input is refused for, in one word each.
ghost use Rattle.std.specs.Prelude.{◌≡◌, ◌≤◌, length};
ghost use Rattle.text_model.specs.Fault.{fault_word, refusal_at};
ghost use Rattle.bridge_text.specs.Refusals.{fault_name, refusal_value};

use crate::id::Id;

/// What an input is refused for. Each name is also the word that is printed.
#[derive(Clone, Copy, Debug, PartialEq, Eq)]
pub enum Fault {
    /// The input ends before the last byte of an item.
    Truncated,
    /// The length of a chunk is 1 to 4, or negative.
    Length,
    /// A length, a size or a text is over its limit.
    Limit,
    /// A byte follows the end of a bundle.
    Trailing,
    /// The input begins with no magic of a bundle.
    Magic,
    /// The input begins with the magic of another kind of bundle.
    OtherBundle,
    /// The input, or the sum of its texts, is over its limit.
    InputLimit,
    /// The payload of a delta chunk is shorter than four ids.
    HeaderShort,
    /// A changeset has a null first parent and another second one, or equal parents that aren't null.
    ParentOrder,
    /// A parent that isn't null is no known revision of the same kind and path.
    ParentUnknown,
    /// The link of a changeset isn't the changeset itself, or that of another revision is no known changeset.
    LinkUnknown,
    /// A delta ends inside a hunk.
    HunkShape,
    /// A hunk starts before the end of the one before it, ends before its start, or ends past the base.
    HunkRange,
    /// The node isn't that of the parents and the text.
    NodeWrong,
    /// The text is that of no changeset.
    ChangesetShape,
    /// A line of a manifest has another form, or its path doesn't rise.
    ManifestShape,
    /// A path isn't fit: that of a file, or that of the first line of a manifest that isn't right.
    PathUnfit,
    /// The metadata of a file revision have no end.
    FileShape,
    /// The node is known with another text or other parents, or it is the null id.
    Collision,
    /// A line of a stream is of another form, or no LF follows a content.
    Line,
    /// A line of a stream says that an object is missing.
    Missing,
    /// A line of a stream names another kind of objects.
    KindUnknown,
    /// An object has another id than its line names.
    IdWrong,
    /// The content of a tree, a commit or a tag has another form.
    ObjectShape,
    /// An entry of a tree has another mode than a file, one that its group may write, a runnable file, a symbolic link, a
    /// directory or a commit of another repository.
    ModeOut,
    /// The name of an entry of a tree isn't fit.
    NameUnfit,
    /// A commit names a parent twice.
    ParentTwice,
    /// A commit has over 64 parents.
    ParentLimit,
    /// A changeset names a manifest that isn't known.
    ManifestUnknown,
    /// A manifest names a file revision that isn't known.
    FileUnknown,
    /// A tree names an object that isn't known, or that is of another kind.
    ObjectUnknown,
    /// The path of a file lies below that of another.
    PathClash,
    /// A parent of a changeset is a link of an octopus commit, and has no partner.
    ParentIsLink,
    /// A parent of a file revision comes only with a later block.
    FileParentLate,
    /// A parent of a manifest comes only with a later block.
    ManifestParentLate,
    /// The partner of a member would be wrapped more than sixteen times.
    NestLimit,
    /// A text, an object or a tree of the partner is over its limit.
    PairLimit,
    /// No changeset refers to the manifest or the file revision.
    Orphan,
    /// A link of an octopus commit came, and no changeset of its commit.
    DanglingLink,
    /// The saved state, or a dump of one of its sides, would be over its limit.
    StateLimit,
    /// A line of a text of names has another form.
    NameShape,
    /// The name of a ref isn't fit.
    RefUnfit,
    /// A name stands twice.
    NameTwice,
    /// A name stands for no saved commit and no kept tag.
    TargetUnknown,
    /// A name stands for an annotated tag that isn't kept.
    TagUnknown,
    /// There are too many names.
    NameLimit,
    /// A made history would have too many changesets.
    CountLimit,
}

impl Fault {
    /// The word that is printed: the variant's name. No word is longer than 18 bytes.
    #[tactic(auto, unfolding(text_model::specs::Fault::fault_word))]
    pub fn name(&self) -> &'static [u8]
        ensures word { result.now ≡ fault_word (fault_name self.now) }
        ensures short { length result.now ≤ 18 }
    {
        match self {
            Fault::Truncated => b"Truncated",
            Fault::Length => b"Length",
            Fault::Limit => b"Limit",
            Fault::Trailing => b"Trailing",
            Fault::Magic => b"Magic",
            Fault::OtherBundle => b"OtherBundle",
            Fault::InputLimit => b"InputLimit",
            Fault::HeaderShort => b"HeaderShort",
            Fault::ParentOrder => b"ParentOrder",
            Fault::ParentUnknown => b"ParentUnknown",
            Fault::LinkUnknown => b"LinkUnknown",
            Fault::HunkShape => b"HunkShape",
            Fault::HunkRange => b"HunkRange",
            Fault::NodeWrong => b"NodeWrong",
            Fault::ChangesetShape => b"ChangesetShape",
            Fault::ManifestShape => b"ManifestShape",
            Fault::PathUnfit => b"PathUnfit",
            Fault::FileShape => b"FileShape",
            Fault::Collision => b"Collision",
            Fault::Line => b"Line",
            Fault::Missing => b"Missing",
            Fault::KindUnknown => b"KindUnknown",
            Fault::IdWrong => b"IdWrong",
            Fault::ObjectShape => b"ObjectShape",
            Fault::ModeOut => b"ModeOut",
            Fault::NameUnfit => b"NameUnfit",
            Fault::ParentTwice => b"ParentTwice",
            Fault::ParentLimit => b"ParentLimit",
            Fault::ManifestUnknown => b"ManifestUnknown",
            Fault::FileUnknown => b"FileUnknown",
            Fault::ObjectUnknown => b"ObjectUnknown",
            Fault::PathClash => b"PathClash",
            Fault::ParentIsLink => b"ParentIsLink",
            Fault::FileParentLate => b"FileParentLate",
            Fault::ManifestParentLate => b"ManifestParentLate",
            Fault::NestLimit => b"NestLimit",
            Fault::PairLimit => b"PairLimit",
            Fault::Orphan => b"Orphan",
            Fault::DanglingLink => b"DanglingLink",
            Fault::StateLimit => b"StateLimit",
            Fault::NameShape => b"NameShape",
            Fault::RefUnfit => b"RefUnfit",
            Fault::NameTwice => b"NameTwice",
            Fault::TargetUnknown => b"TargetUnknown",
            Fault::TagUnknown => b"TagUnknown",
            Fault::NameLimit => b"NameLimit",
            Fault::CountLimit => b"CountLimit",
        }
    }
}

/// The first thing for which an input is refused.
#[derive(Clone, Copy, Debug, PartialEq, Eq)]
pub struct Refusal {
    /// What is wrong.
    pub fault: Fault,
    /// The revision or object of which it is wrong; the null id where it is none's.
    pub id: Id,
    /// The offset in the input, or the number of a line.
    pub place: u64,
}

impl Refusal {
    /// A refusal of no revision or object.
    pub fn at(fault: Fault, place: u64) -> Refusal
        ensures { refusal_value result ≡ refusal_at (fault_name fault) place }
    {
        Refusal {
            fault,
            id: Id::NULL,
            place,
        }
    }
}
