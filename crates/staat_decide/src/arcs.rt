// Which parts of a set block which along a direction.
ghost use Rattle.std.specs.Prelude.{◌≡◌, ◌<◌, ◌≤◌, All, IfOk, length};
ghost use Rattle.staat_motion.specs.Motions.{IsMotionOf};
ghost use Rattle.staat_decide.specs.Arcs.{AreBlockingRows, IsRow};
ghost use Rattle.staat_decide.specs.Keeping.{AreKept};

use crate::scene::View;
use crate::table::{KeptTable, blocks_with, table_for};
use staat_cone::FacetSource;
use staat_model::Part;
use staat_motion::Along;
use staat_vec::{Listed, OutOfMemory};
use std::alloc::Global;

/// For each part of a list, in order, whether one part blocks it.
pub type Row = Listed<bool>;

// which parts of w the part a blocks
fn row_of<F: FacetSource>(
    table: &mut KeptTable,
    view: &View<F>,
    w: &[u32],
    a: u32,
) -> Result<Row, OutOfMemory>
    requires made { IsMotionOf view.now.parts.now view.now.along.now }
    requires members { All (λ p. p < length view.now.parts.now) w.now }
    requires a_in { a < length view.now.parts.now }
    requires some { 1 ≤ length table.old.items }
    requires kept { AreKept view.now.parts.now table.old.items }
    ensures some { length table.new.items ≡ length table.old.items }
    ensures kept { AreKept view.now.parts.now table.new.items }
    ensures row { IfOk result (IsRow view.now.parts.now view.now.along.now.d w.now a) }
{
    let mut row = Vec::new(view.alloc);
    for b in w {
        row.push(blocks_with(table, view, a, *b)?)?;
    }
    Ok(Row::from_vec(row))
}

/// The same as [`rows_of`], with facets that are kept.
pub fn rows_with<F: FacetSource>(
    table: &mut KeptTable,
    view: &View<F>,
    w: &[u32],
) -> Result<Vec<Row>, OutOfMemory>
    requires made { IsMotionOf view.now.parts.now view.now.along.now }
    requires members { All (λ p. p < length view.now.parts.now) w.now }
    requires some { 1 ≤ length table.old.items }
    requires kept { AreKept view.now.parts.now table.old.items }
    ensures some { length table.new.items ≡ length table.old.items }
    ensures kept { AreKept view.now.parts.now table.new.items }
    ensures rows { IfOk result (λ rows. AreBlockingRows view.now.parts.now view.now.along.now.d w.now rows.items) }
{
    let mut rows = Vec::new(view.alloc);
    for a in w {
        rows.push(row_of(table, view, w, *a)?)?;
    }
    Ok(rows)
}

/// For each part of `w`, in order, which parts of `w` it blocks: each two are asked about once.
pub fn rows_of<F: FacetSource>(
    alloc: Global,
    source: &F,
    parts: &[Part],
    along: &Along,
    w: &[u32],
) -> Result<Vec<Row>, OutOfMemory>
    requires made { IsMotionOf parts.now along.now }
    requires members { All (λ p. p < length parts.now) w.now }
    ensures { IfOk result (λ rows. AreBlockingRows parts.now along.now.d w.now rows.items) }
{
    let mut table = table_for(alloc, parts)?;
    let view = View {
        alloc,
        source,
        parts,
        along,
    };
    rows_with(&mut table, &view, w)
}
