// Laws of what shelves tell.
ghost use Rattle.std.specs.Prelude.{List};
ghost use Rattle.staat_edge.specs.Own.{AreOnce, files_of};
ghost use Rattle.staat_edge.specs.Readings.{Agree, FileReading};

/// Where no file was opened twice, there are files that all readings agree with: those that they gave.
#[tactic(auto, using(crate::proofs::OwnLemmas::own_agree))]
pub fn own_files()
    ensures { (given : List FileReading) → AreOnce given → Agree given (files_of given) }
{}
