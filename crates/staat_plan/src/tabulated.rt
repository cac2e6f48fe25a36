// The facets that stand in a table, as a source.
ghost use Rattle.std.specs.Prelude.{◌≡◌, ◌<◌, ℕ, IfOk, IfSome, MatchOption, Some, length};
ghost use Rattle.staat_model.specs.{Assemblies.piece_at, Sets.Has};
ghost use Rattle.staat_pairs.specs.Tables.{IsTableArc, WasMadeFrom, facets_of};

use staat_cone::FacetSource;
use staat_model::{Arc, Assembly, Piece, Sound};
use staat_planes::PlaneTable;
use staat_vec::{OutOfMemory, V3};
use std::alloc::Global;
use std::marker::Model;

/// A source of facets that looks two pieces up in a table of an assembly, and asks another source only where they do
/// not both stand there, in different parts. It is seen as the table.
///
/// Pieces are known by their points. So the facets of each two pieces are computed once, whatever is asked after the
/// table was made.
#[derive(Drop)]
pub struct Tabulated<'a, F: FacetSource> {
    source: &'a F,
    sound: &'a Sound,
    table: &'a PlaneTable,
}

impl<'a, F: FacetSource> Model for Tabulated<'a, F> {
    ghost use Rattle.staat_pairs.specs.Tables.{Table, WasMadeFrom, coded_table};

    ghost Value = { Table };

    ghost coded = { coded_table };

    ghost view = { λ t. t.table.now };

    ghost invariant = { λ t. WasMadeFrom t.sound.now t.table.now };
}

// the number of a piece of the part a that has these points, if there is one
fn piece_in(assembly: &Assembly, a: u32, points: &[V3]) -> Option<u32>
    requires { a < length assembly.now }
    ensures { MatchOption result ((i : ℕ) → piece_at assembly.now a i ≡ Some points.now → ⊥)
        (λ i. piece_at assembly.now a i ≡ Some points.now) }
{
    for i in 0..assembly.pieces(a) {
        if assembly.piece(a, i).points() == points {
            return Some(i);
        }
    }
    None
}

// the facets of two pieces of the table, ascending
fn facets_in(alloc: Global, table: &PlaneTable, arc: Arc) -> Result<Vec<V3>, OutOfMemory>
    requires { IsTableArc table.now arc }
    ensures { IfOk result (λ list. list.items ≡ facets_of table.now arc) }
{
    let mut facets = Vec::new(alloc);
    for m in 0..table.facet_count(arc) {
        facets.push(table.facet(arc, m))?;
    }
    Ok(facets)
}

// a part of the table, and the number of a piece of it that has these points, if there is one
fn place_of(sound: &Sound, table: &PlaneTable, points: &[V3]) -> Option<(u32, u32)>
    ensures { IfSome result (λ place. Has table.now.of place.0
        × (piece_at sound.now place.0 place.1 ≡ Some points.now)) }
{
    let assembly = sound.assembly();
    let set = table.set();
    for a in 0..assembly.parts() {
        if set.has(a) {
            if let Some(i) = piece_in(assembly, a, points) {
                return Some((a, i));
            }
        }
    }
    None
}

// two pieces of different parts of the table that have these points, if there are such
fn arc_of(sound: &Sound, table: &PlaneTable, first: &[V3], second: &[V3]) -> Option<Arc>
    requires { WasMadeFrom sound.now table.now }
    ensures { IfSome result (λ arc. IsTableArc table.now arc × (piece_at sound.now arc.a arc.i ≡ Some first.now)
        × (piece_at sound.now arc.b arc.j ≡ Some second.now)) }
{
    let (a, i) = place_of(sound, table, first)?;
    let (b, j) = place_of(sound, table, second)?;
    if a == b {
        return None;
    }
    Some(Arc { a, i, b, j })
}

impl<'a, F: FacetSource> Tabulated<'a, F> {
    /// The table, which was made from the assembly, before the source.
    pub fn of(source: &'a F, sound: &'a Sound, table: &'a PlaneTable) -> Tabulated<'a, F>
        requires { WasMadeFrom sound.now table.now }
        ensures { result ≡ table.now }
    {
        Tabulated {
            source,
            sound,
            table,
        }
    }
}

impl<'a, F: FacetSource> FacetSource for Tabulated<'a, F> {
    fn facets(&self, alloc: Global, p: &Piece, q: &Piece) -> Result<Vec<V3>, OutOfMemory> {
        match arc_of(self.sound, self.table, p.points(), q.points()) {
            Some(arc) => facets_in(alloc, self.table, arc),
            None => self.source.facets(alloc, p, q),
        }
    }
}
