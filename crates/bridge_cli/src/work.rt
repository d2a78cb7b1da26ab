// What a command is to write.
ghost use Rattle.std.specs.Prelude.{◌≡◌, None};

use rope::Rope;
use std::alloc::Global;

/// What a command is to write, once its whole input was accepted.
#[derive(Drop)]
pub struct Work {
    /// The bytes of the output.
    pub output: Rope,
    /// The text of the next state, where one is saved.
    pub text: Option<Rope>,
}

impl Work {
    /// An output, with no state to be saved.
    pub fn of(output: Rope) -> Work
        ensures output { result.output ≡ output }
        ensures text { result.text ≡ None }
    {
        Work { output, text: None }
    }

    /// The same of an output in one piece.
    pub fn of_bytes(alloc: Global, output: Vec<u8>) -> Work
        ensures output { result.output ≡ output.items }
        ensures text { result.text ≡ None }
    {
        Work::of(Rope::of(alloc, output))
    }
}
