// What a stage of reading does with the lines of a text.
ghost use Rattle.std.specs.Prelude.{◌++◌, List, ℕ, IfNone, IfOk, IfSome};
ghost use Rattle.staat_model.specs.Texts.{IsLine};
ghost use Rattle.staat_cert.specs.TextLines.{BeginsWhole, IsToldWhole, TakesLine, TellsWhole};

use std::alloc::{AllocError, Global};

/// What the whole lines of a text have said so far, and which lines may follow.
pub trait TextStage: Drop {
    /// What one line says.
    type Line: Drop;

    /// What a whole text says.
    type Whole: Drop;

    // what the bytes of one line say
    ghost says: { List ℕ → Self.Line → Type 0 };

    // what a whole text says
    ghost spells: { List ℕ → Self.Whole → Type 0 };

    // these lines were taken, one after another
    ghost has_taken: { Self → List ℕ → Type 0 };

    /// The line that the bytes spell, its line feed included. `numbers` is room for its numbers.
    fn line_of(numbers: &mut Vec<i128>, bytes: &[u8]) -> Result<Option<Self::Line>, AllocError>
        ensures found { IfOk result (λ r. IfSome r (says bytes.now)) }
        ensures none { IfOk result (λ r. IfNone r (IsLine bytes.now → (s : Self) → (text : List ℕ)
            → has_taken s text → BeginsWhole spells (text ++ bytes.now) → ⊥)) };

    /// Whether the line may stand there. If so it is taken.
    fn take_line(&mut self, alloc: Global, said: Self::Line) -> Result<bool, AllocError>
        ensures { IfOk result (λ b. (bytes : List ℕ) → says bytes said → IsLine bytes
            → TakesLine spells (has_taken self.old) (has_taken self.new) bytes b) };

    /// Whether the lines are a whole text.
    fn is_whole(&self) -> bool
        ensures { (text : List ℕ) → has_taken self.now text → IsToldWhole spells text result };

    /// What the lines say, where they are a whole text.
    fn whole(self) -> Option<Self::Whole>
        ensures { (text : List ℕ) → has_taken self text → TellsWhole spells text result };
}
