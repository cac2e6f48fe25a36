// A shelf of files.
ghost use Rattle.std.specs.Prelude.{◌≡◌, ◌≤◌, ◌<◌, ◌+◌, ◌⊎◌, ◌∷◌, ℕ, Bool, List, length};
ghost use Rattle.std.specs.Prelude.{Option, Some, None, Result, IsSome, IsSomeAnd, IsErr, is_err, OnOk, OnErr, IfOk};
ghost use Rattle.std.specs.Prelude.{MatchResult, option_map, ⊤};
ghost use Rattle.std.specs.Io.KnownBytes.{ReadConsumes};
ghost use Rattle.staat_edge.specs.Causes.{Rose};
ghost use Rattle.staat_edge.specs.Files.{bytes_of, content_of, Lacks, told_name, left_of, failed_at, held_name};
ghost use Rattle.staat_edge.specs.Readings.{after_read, begun};
ghost use Rattle.staat_edge.specs.Told.{ShelfTold};
ghost use Rattle.staat_edge.specs.declared.shelf.Failed.{Failed};

use thiserror::Error;

/// The one fault of the outside: a call did not do what it was called for.
#[derive(Clone, Copy, Debug, PartialEq, Eq, Error)]
#[error("the call failed")]
pub struct Failed;

/// A shelf of files, of which one at a time is open and is read from its start on.
///
/// A shelf may tell what it holds, as one in memory does, or not, as a disk does. It counts its
/// faults, so that an answer of `Failed` has a cause that its caller can see: the count rose in the
/// call, or stands at the greatest u64. Only a call that opens a name which a told shelf does not
/// hold fails without that, so no program can raise the count by a name of its own choice.
///
/// Every shelf tells its readings: what each file that was opened has given so far, in the order of the calls.
pub trait Shelf {
    /// What the shelf tells: what it holds, which no call changes; how often it has failed, which never falls; the
    /// file at which it failed last, the open file and the place in it; and the readings of files, the last one first.
    ghost told: { Self → ShelfTold };

    /// Where the shelf tells what it holds and a file is open, the bytes that are left of it.
    ghost left: { Self → Option (List ℕ) };

    /// What more the shelf promises of `open`: of the shelf before the call, the name, whether the
    /// call failed, and the shelf after it.
    ghost opens: { Self → List ℕ → Bool → Self → Type 0 } = { λ _ _ _ _. ⊤ };

    /// What more the shelf promises of `read`: of the shelf before the call, the buffer after it,
    /// the answer, and the shelf after it.
    ghost reads: { Self → List ℕ → Result ℕ Failed → Self → Type 0 } = { λ _ _ _ _. ⊤ };

    /// Opens the file of that name at its start, and closes the one before, also where it fails.
    fn open(&mut self, name: &str) -> Result<(), Failed>
        ensures holds { (told self.new).holds ≡ (told self.old).holds }
        ensures count { (told self.old).faults ≤ (told self.new).faults }

        ensures start { OnOk result ((told self.new).place ≡ Some 0) }
        ensures content { OnOk result (left self.new ≡ content_of (told self.old).holds name.now) }
        ensures name { OnOk result ((told self.new).opened ≡ told_name (told self.old).holds name.now) }

        // a name that is not held: the call fails, and this is no fault of the shelf
        ensures lacking { Lacks (told self.old).holds name.now →
            IsErr result × ((told self.new).faults ≡ (told self.old).faults) }
        ensures closed { OnErr result ((told self.new).place ≡ None) }
        ensures begun { OnOk result ((told self.new).given ≡ begun name.now ∷ (told self.old).given) }
        ensures none_begun { OnErr result ((told self.new).given ≡ (told self.old).given) }
        ensures cause { OnErr result
            (Lacks (told self.old).holds name.now ⊎ Rose (told self.old).faults (told self.new).faults) }
        ensures failed { (told self.new).failed ≡
            failed_at (is_err result) (held_name (told self.old).holds name.now) (told self.old).failed }
        ensures more { opens self.old name.now (is_err result) self.new };

    /// Reads the next bytes of the open file into the front of `buf`, and answers how many. It
    /// gives none only at the file's end or where `buf` is empty. After `Failed` the place is as
    /// before.
    fn read(&mut self, buf: &mut [u8]) -> Result<usize, Failed>
        requires { IsSome (told self.old).place }
        ensures holds { (told self.new).holds ≡ (told self.old).holds }
        ensures count { (told self.old).faults ≤ (told self.new).faults }
        ensures name { (told self.new).opened ≡ (told self.old).opened }

        ensures room { IfOk result (λ n. n ≤ length buf.new) }
        ensures moved { MatchResult result
            (λ n. (told self.new).place ≡ option_map (λ at. at + n) (told self.old).place)
            (λ _. (told self.new).place ≡ (told self.old).place) }
        ensures bytes { ReadConsumes (left self.old) (left self.new) result buf.new }
        ensures gave { MatchResult result
            (λ n. (told self.new).given ≡ after_read n buf.new (told self.old).given)
            (λ _. (told self.new).given ≡ (told self.old).given) }

        ensures cause { OnErr result (Rose (told self.old).faults (told self.new).faults) }
        ensures failed { (told self.new).failed ≡
            failed_at (is_err result) (told self.old).opened (told self.old).failed }
        ensures more { reads self.old buf.new result self.new };

    /// What is left is told by what the shelf holds, the open file's name and the place.
    ghost left_is: { (s : Self) → left s ≡ left_of (told s).holds (told s).opened (told s).place };

    /// Where the shelf tells what it holds and a file is open, it tells the name of a held file.
    ghost held_is: { (s : Self) (files : List (List ℕ × List ℕ)) → (told s).holds ≡ Some files →
        (place : ℕ) → (told s).place ≡ Some place →
        IsSomeAnd (told s).opened (λ name. IsSome (bytes_of name files)) };

    /// Where no file is open, the shelf tells no name of one.
    ghost closed_is: { (s : Self) → (told s).place ≡ None → (told s).opened ≡ None };

    /// A shelf that does not tell what it holds tells no names.
    ghost untold_is: { (s : Self) → (told s).holds ≡ None →
        ((told s).opened ≡ None) × ((told s).failed ≡ None) };
}
