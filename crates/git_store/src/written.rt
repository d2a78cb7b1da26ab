use shared_text::Text;

/// The first objects of a store as `git cat-file --batch` writes them, in one text.
#[derive(Drop)]
pub struct Written {
    /// The text, which others may own too.
    pub text: Text,
    /// How many objects it has.
    pub count: usize,
}
