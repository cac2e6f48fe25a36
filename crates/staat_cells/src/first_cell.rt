// The first open cell of planes, made by itself: it is on the negative side of each plane.
ghost use Rattle.std.specs.Prelude.{◌≤◌, ◌<ℤ◌, ◌++◌, [], ◌∷◌, Contains, List, MatchOption, length, pos};
ghost use Rattle.staat_vec.specs.declared.vector.V3.{V3 as Vector};
ghost use Rattle.staat_vec.specs.Primitives.{IsCanon};
ghost use Rattle.staat_vec.specs.Vectors.{IsWithin, dot, cross};
ghost use Rattle.staat_model.specs.declared.tree.Kind.TheVariants.{Open};
ghost use Rattle.staat_model.specs.Cells.{IsEntry};
ghost use Rattle.staat_model.specs.Planes.{axes};
ghost use Rattle.staat_pairs.specs.Tables.{AreTablePlanes};
ghost use Rattle.staat_cells.specs.FirstCell.{AreArcEnds, HasNoLow, HasNoLowEdge, IsLastLowEdge, IsLowEdge};
ghost use Rattle.staat_cells.specs.FirstCell.{first_entry};

use staat_vec::{DIRECTION, NORMAL, Normal, V3, VERTEX, add, cross_normal, dot, primitive};

/// Two directions on a plane between which directions lie.
#[derive(Clone, Copy)]
pub struct Ends {
    pub(crate) first: V3,
    pub(crate) second: V3,
}

/// An edge on the border of the first open cell: the number of the plane that it lies on, and its representative.
#[derive(Clone, Copy)]
pub struct LowEdge {
    pub(crate) place: usize,
    pub(crate) d: V3,
}

// the ends between which the directions on the plane g are not on the positive side of a or of b
fn ends_between(g: V3, a: V3, b: V3) -> Ends
    requires g { IsWithin NORMAL g }
    requires a { IsWithin NORMAL a }
    requires b { IsWithin NORMAL b }
    requires turn { dot b (cross g a) <ℤ pos 0 }
    ensures { (planes : List Vector) → Contains planes a → Contains planes b → AreArcEnds planes g [] result }
{
    Ends {
        first: cross_normal(g, a),
        second: cross_normal(b, g),
    }
}

// ends by two coordinate planes on the plane g, whose first component that is not zero is positive
fn axis_ends(g: V3) -> Ends
    requires size { IsWithin NORMAL g }
    requires canonical { IsCanon g }
    ensures { (planes : List Vector) → ((m : Vector) → Contains axes m → Contains planes m)
        → AreArcEnds planes g [] result }
{
    let x = V3 { x: 1, y: 0, z: 0 };
    let y = V3 { x: 0, y: 1, z: 0 };
    let z = V3 { x: 0, y: 0, z: 1 };
    if g.x != 0 {
        ends_between(g, z, y)
    } else if g.y != 0 {
        ends_between(g, x, z)
    } else {
        ends_between(g, y, x)
    }
}

// the ends after one more plane was passed, if directions are left between them
fn narrowed(g: V3, h: V3, ends: Ends) -> Option<Ends>
    requires g { IsWithin NORMAL g }
    requires h { IsWithin NORMAL h }
    requires first { IsWithin VERTEX ends.first }
    requires second { IsWithin VERTEX ends.second }
    ensures { (planes passed : List Vector) → Contains planes h → AreArcEnds planes g passed ends
        → MatchOption result (HasNoLow planes g) (AreArcEnds planes g (passed ++ h ∷ [])) }
{
    let first = dot(h, ends.first);
    let second = dot(h, ends.second);
    if first > 0 {
        if second >= 0 {
            return None;
        }
        let first = cross_normal(g, h);
        return Some(Ends { first, ..ends });
    }
    if second > 0 {
        if first >= 0 {
            return None;
        }
        let second = cross_normal(h, g);
        return Some(Ends { second, ..ends });
    }
    Some(ends)
}

// the ends on the plane g of what is on the positive side of no plane
fn ends_on(planes: &[Normal], g: V3) -> Option<Ends>
    requires planes { AreTablePlanes planes.now }
    requires g { Contains planes.now g }
    ensures { MatchOption result (HasNoLow planes.now g) (AreArcEnds planes.now g planes.now) }
{
    let mut ends = axis_ends(g);
    for h in planes {
        match narrowed(g, h.vector(), ends) {
            None => return None,
            Some(new) => ends = new,
        }
    }
    Some(ends)
}

// the edge on the plane g, if it has one: the sum of the vertices at its ends
#[tactic(auto, using(crate::proofs::LeastCell::first_some, crate::proofs::LeastCell::second_some))]
fn edge_on(planes: &[Normal], g: V3) -> Option<V3>
    requires planes { AreTablePlanes planes.now }
    requires g { Contains planes.now g }
    ensures { MatchOption result (HasNoLow planes.now g) (IsLowEdge planes.now g) }
{
    match ends_on(planes, g) {
        None => None,
        Some(ends) => Some(add(primitive(ends.first), primitive(ends.second))),
    }
}

// the edge of the last plane before the end that has one
fn edge_before(planes: &[Normal], end: usize) -> Option<LowEdge>
    requires planes { AreTablePlanes planes.now }
    requires end { end ≤ length planes.now }
    ensures { MatchOption result (HasNoLowEdge planes.now end) (IsLastLowEdge planes.now end) }
{
    for j in 0..end {
        let place = end - 1 - j;
        match edge_on(planes, planes[place].vector()) {
            None => {}
            Some(d) => return Some(LowEdge { place, d }),
        }
    }
    None
}

/// The representative of the first open cell of planes that keep the rules of a table's: the cell on the negative side
/// of each plane.
///
/// Its first edge on the border is on the last plane that has one, since there `Neg` gives way to `Zero` latest, and
/// its second edge is on the last plane but that. On a plane the two ends of the edge are found at once by narrowing
/// from plane to plane the directions that are left, and most planes are refused after few others. So it takes no
/// memory, and time linear in the planes for each plane that is looked at, where all points and edges are cubic.
#[tactic(auto, using(crate::proofs::LeastCell::some_second))]
pub fn first_open(planes: &[Normal]) -> V3
    requires { AreTablePlanes planes.now }
    ensures entry { IsEntry planes.now Open (first_entry planes.now result) }
    ensures size { IsWithin DIRECTION result }
{
    let Some(first) = edge_before(planes, planes.len()) else {
        unreachable!();
    };
    let Some(second) = edge_before(planes, first.place) else {
        unreachable!();
    };
    add(first.d, second.d)
}
