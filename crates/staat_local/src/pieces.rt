// Whether two pieces touch.
ghost use Rattle.std.specs.Prelude.{◌≡◌, ◌≤◌, ◌≤ℤ◌, ◌↔◌, ◌⊎◌, All, Any, IsTrue, length};
ghost use Rattle.staat_vec.specs.Vectors.{IsWithin, dot};
ghost use Rattle.staat_model.specs.Assemblies.{HoldsAt};
ghost use Rattle.staat_pairs.specs.Tables.{IsTableArc, WasMadeFrom, facets_of};
ghost use Rattle.staat_local.specs.Contacts.{Contact, total};
ghost use Rattle.staat_local.specs.Touching.{IsFarthest};

use staat_model::{Arc, Piece, Sound};
use staat_planes::PlaneTable;
use staat_vec::{DIRECTION, ORIGIN, POINT, V3, add, dot};

// the sum of the facets of two pieces
fn facet_sum(table: &PlaneTable, arc: Arc) -> V3
    requires { IsTableArc table.now arc }
    ensures is { result ≡ total (facets_of table.now arc) }
    ensures size { IsWithin DIRECTION result }
{
    let mut sum = ORIGIN;
    for m in 0..table.facet_count(arc) {
        sum = add(sum, table.facet(arc, m));
    }
    sum
}

// the greater of two numbers
fn greater(a: i128, b: i128) -> i128
    ensures either { (result ≡ a) ⊎ (result ≡ b) }
    ensures first { a ≤ℤ result }
    ensures second { b ≤ℤ result }
{
    if a < b { b } else { a }
}

// how far the points reach along n
fn reach(n: V3, points: &[V3]) -> i128
    requires some { 1 ≤ length points.now }
    requires points { All (IsWithin POINT) points.now }
    requires n { IsWithin DIRECTION n }
    ensures { IsFarthest n points.now result }
{
    let mut far = dot(points[0], n);
    for p in points {
        far = greater(far, dot(*p, n));
    }
    far
}

// whether one of the points lies so far along n, or less far
fn has_within(n: V3, far: i128, points: &[V3]) -> bool
    requires points { All (IsWithin POINT) points.now }
    requires n { IsWithin DIRECTION n }
    ensures { IsTrue result ↔ Any (λ p. dot p n ≤ℤ far) points.now }
{
    for p in points {
        if dot(*p, n) <= far {
            return true;
        }
    }
    false
}

/// Whether two pieces of different parts of the table's set touch: whether they have a point in common, be it on their
/// borders.
///
/// The table was made from this assembly. The facets' sum leads from the first piece to the second, and two points
/// that it does not part lie on the planes of all facets; so the time is linear in the numbers of facets and of
/// points. It takes no memory.
pub fn touch(table: &PlaneTable, sound: &Sound, arc: Arc) -> bool
    requires made { WasMadeFrom sound.now table.now }
    requires across { IsTableArc table.now arc }
    ensures { IsTrue result ↔ HoldsAt sound.now arc Contact }
{
    let n = facet_sum(table, arc);
    let assembly = sound.assembly();
    let first = assembly.piece(arc.a, arc.i).points();
    let second = assembly.piece(arc.b, arc.j).points();
    let far = reach(n, first);
    has_within(n, far, second)
}
