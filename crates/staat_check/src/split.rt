// The rules of one split.
ghost use Rattle.std.specs.Prelude.{◌≡◌, ◌+◌, ◌<◌, ◌^◌, ◌↔◌};
ghost use Rattle.std.specs.Prelude.{IsTrue, All, IfSome, MatchOption, length, map};
ghost use Rattle.std.specs.List.Sorted.{IsStrictlySortedBy};
ghost use Rattle.staat_vec.specs.Vectors.{IsWithin, origin};
ghost use Rattle.staat_model.specs.Assemblies.{HoldsAt, piece_count};
ghost use Rattle.staat_model.specs.Certificates.{IsAcross, IsWall, SplitHolds, arc_cmp};
ghost use Rattle.staat_model.specs.Lines.{IsArcInBounds};
ghost use Rattle.staat_model.specs.Reasons.{IsSplitReason};
ghost use Rattle.staat_model.specs.Sets.{Has};
ghost use Rattle.staat_model.specs.Walls.{IsShown};
ghost use Rattle.staat_check.specs.Trees.{AreFitSides, ArePartsOf, IsSepInBounds};
ghost use Rattle.staat_check.specs.Searches.{TellsPlace};

use staat_cone::separates;
use staat_model::{Arc, Assembly, PartSet, Reason, Sep};
use staat_vec::{DIRECTION, NORMAL, ORIGIN, V3, dot, is_same};

/// Whether the arc joins a piece of a part of `s` and a piece of a part of `r`. Both hold parts of the assembly alone.
pub fn is_across(assembly: &Assembly, s: PartSet, r: PartSet, arc: Arc) -> bool
    requires s { ArePartsOf assembly.now s }
    requires r { ArePartsOf assembly.now r }
    requires arc { IsArcInBounds arc }
    ensures { IsTrue result ↔ IsAcross assembly.now s r arc }
{
    s.has(arc.a) && r.has(arc.b) && arc.i < assembly.pieces(arc.a) && arc.j < assembly.pieces(arc.b)
}

// whether the wall shows that the first piece never meets the second along d
fn is_shown(assembly: &Assembly, sep: Sep, d: V3) -> bool
    requires normal { IsWithin NORMAL sep.n }
    requires direction { IsWithin DIRECTION d }
    requires a { sep.arc.a < length assembly.now }
    requires i { sep.arc.i < piece_count assembly.now sep.arc.a }
    requires b { sep.arc.b < length assembly.now }
    requires j { sep.arc.j < piece_count assembly.now sep.arc.b }
    ensures { IsTrue result ↔ HoldsAt assembly.now sep.arc (λ p q. IsShown p q d sep.n) }
{
    let p = assembly.piece(sep.arc.a, sep.arc.i);
    let q = assembly.piece(sep.arc.b, sep.arc.j);
    separates(sep.n, p, q) && dot(sep.n, d) <= 0
}

/// A split that is judged: the side moves along a direction away from the rest, which the walls are to show.
#[derive(Drop)]
pub(crate) struct Parting<'a> {
    pub assembly: &'a Assembly,
    pub side: PartSet,
    pub rest: PartSet,
    pub d: V3,
    pub seps: &'a [Sep],
}

impl<'a> Parting<'a> {
    // whether the wall is for two pieces across, and shows that the first never meets the second along the direction
    fn is_wall(&self, sep: Sep) -> bool
        requires sides { AreFitSides self.now.assembly.now self.now.side self.now.rest self.now.d }
        requires sep { IsSepInBounds sep }
        ensures { IsTrue result ↔ IsWall self.now.assembly.now self.now.side self.now.rest self.now.d sep }
    {
        is_across(self.assembly, self.side, self.rest, sep.arc)
            && is_shown(self.assembly, sep, self.d)
    }

    // the first wall that breaks its rule
    fn first_bad_wall(&self) -> Option<u32>
        requires sides { AreFitSides self.now.assembly.now self.now.side self.now.rest self.now.d }
        requires seps { All IsSepInBounds self.now.seps.now }
        requires few { length self.now.seps.now < 2 ^ 32 }
        ensures answer { TellsPlace (IsWall self.now.assembly.now self.now.side self.now.rest self.now.d)
            self.now.seps.now result }
        ensures place { IfSome result (λ m. m < length self.now.seps.now) }
    {
        for (m, sep) in self.seps.iter().enumerate() {
            if !self.is_wall(*sep) {
                return Some(m as u32);
            }
        }
        None
    }

    /// The first rule that the split breaks, which is the node of this number, on this line.
    pub(crate) fn reason(&self, node: u32, line: u32) -> Option<Reason>
        requires sides { AreFitSides self.now.assembly.now self.now.side self.now.rest self.now.d }
        requires seps { All IsSepInBounds self.now.seps.now }
        requires ascending { IsStrictlySortedBy arc_cmp (map (λ sep. sep.arc) self.now.seps.now) }
        requires few { line + length self.now.seps.now < 2 ^ 32 }
        ensures { MatchOption result
            (SplitHolds self.now.assembly.now self.now.side self.now.rest self.now.d self.now.seps.now)
            (IsSplitReason self.now.assembly.now (record {
              node = node;
              line = line;
              moved = self.now.side;
              rest = self.now.rest;
              d = self.now.d;
              seps = self.now.seps.now;
            })) }
    {
        if is_same(self.d, ORIGIN) {
            return Some(Reason::ZeroDirection(node));
        }
        match self.first_bad_wall() {
            Some(m) => Some(Reason::BadSeparator(line + 1 + m)),
            None => match self.first_missing() {
                Some(arc) => Some(Reason::MissingSeparator(arc.a, arc.i, arc.b, arc.j)),
                None => None,
            },
        }
    }
}
