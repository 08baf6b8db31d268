//! Where documents and files of paths come from.

ghost use Rattle.std.specs.Prelude.{◌≡◌, ◌∷◌, [], ℕ, List, None, Option, Some, IfOk, IfSome};
ghost use Rattle.jpq_program.specs.Inputs.{Opens};

use std::io;
use std::io::Read;

/// The inputs that a program may open.
pub trait Inputs {
    /// A reader of an input.
    type Input: Read + Drop;

    /// What is known of the bytes of an input, by its name.
    ghost bytes_of: { Self → List ℕ → Option (List ℕ) } = { λ _ _. None };

    /// Which inputs were opened, by their names, in order, where that is known.
    ghost opened: { Self → Option (List (List ℕ)) } = { λ _. None };

    /// Opens the file of a name, or standard input for `-`.
    fn open(&mut self, name: &str) -> io::Result<Self::Input>
        ensures known { IfOk result (λ input. IfSome (bytes_of self.old name.now)
            (λ bytes. Self.Input.remaining input ≡ Some bytes)) }
        ensures same { (name : List ℕ) → bytes_of self.new name ≡ bytes_of self.old name }
        ensures opened { Opens (opened self.old) (opened self.new) (name.now ∷ []) };
}
