ghost use Rattle.std.specs.Prelude.{◌≡◌, option_map, bytes_eq};
ghost use Rattle.git_model.specs.Tree.{is_directory, is_blob_mode, mode_text, mode_of, is_directory_text};
ghost use Rattle.git_object.specs.Values.{mode_value};

/// What an entry of a tree is, by its mode, as `git ls-tree` shows it.
#[derive(Clone, Copy, Debug, PartialEq, Eq)]
pub enum Mode {
    /// A plain file: `100644`.
    File,
    /// A plain file that its group may write: `100664`.
    Group,
    /// A file that can be run: `100755`.
    Exec,
    /// A symbolic link: `120000`.
    Link,
    /// A directory, whose id is that of a tree: `40000`.
    Dir,
    /// A commit of another repository, whose id it is: `160000`.
    Gitlink,
}

impl Mode {
    /// Whether this is the mode of a directory.
    pub fn is_directory(&self) -> bool
        ensures { result ≡ is_directory (mode_value self.now) }
    {
        match self {
            Mode::Dir => true,
            Mode::File | Mode::Group | Mode::Exec | Mode::Link | Mode::Gitlink => false,
        }
    }

    /// Whether this is the mode of a blob.
    pub fn is_blob(&self) -> bool
        ensures { result ≡ is_blob_mode (mode_value self.now) }
    {
        match self {
            Mode::File | Mode::Group | Mode::Exec | Mode::Link => true,
            Mode::Dir | Mode::Gitlink => false,
        }
    }

    /// The octal digits that stand for the mode in a tree.
    pub fn text(&self) -> &'static [u8]
        ensures { result.now ≡ mode_text (mode_value self.now) }
    {
        match self {
            Mode::File => b"100644",
            Mode::Group => b"100664",
            Mode::Exec => b"100755",
            Mode::Link => b"120000",
            Mode::Dir => b"40000",
            Mode::Gitlink => b"160000",
        }
    }

    /// The mode whose text this is; `None` for any other text.
    pub fn of_text(text: &[u8]) -> Option<Mode>
        ensures { option_map mode_value result ≡ mode_of text.now }
    {
        if is_text_of(Mode::File, text) {
            Some(Mode::File)
        } else if is_text_of(Mode::Group, text) {
            Some(Mode::Group)
        } else if is_text_of(Mode::Exec, text) {
            Some(Mode::Exec)
        } else if is_text_of(Mode::Link, text) {
            Some(Mode::Link)
        } else if is_text_of(Mode::Dir, text) {
            Some(Mode::Dir)
        } else if is_text_of(Mode::Gitlink, text) {
            Some(Mode::Gitlink)
        } else {
            None
        }
    }
}

fn is_text_of(mode: Mode, text: &[u8]) -> bool
    ensures { result ≡ bytes_eq (mode_text (mode_value mode)) text.now }
{
    text == mode.text()
}

/// Whether this is the text of a directory's mode.
pub fn is_directory_text(text: &[u8]) -> bool
    ensures { result ≡ is_directory_text text.now }
{
    text == b"40000".as_slice()
}
