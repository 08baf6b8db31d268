//! The program's words.

ghost use Rattle.std.specs.Prelude.{◌≡◌, List, IfOk, drop, String};
ghost use Rattle.jsonpath_program.specs.Words.{Drains, IsFinite, Global};

use std::alloc::{AllocError, Global};

/// The words after the first, which is the program's name, in order. It fails where one cannot be stored.
pub fn words_after_first<I: Iterator<Item = String> + Drop>(
    alloc: Global,
    args: I,
) -> Result<Vec<String>, AllocError>
    requires can { I.can_next args }
    requires ends { IsFinite (I.remaining args) }
    ensures { IfOk result (λ words.
        (all : List (String Global)) × Drains I.next_gives args all × (words.items ≡ drop 1 all)) }
{
    args.skip(1).collect(alloc)
}
