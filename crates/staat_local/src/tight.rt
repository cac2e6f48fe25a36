// The pairs of pieces that touch, as a core may have them.
ghost use Rattle.std.specs.Prelude.{◌≡◌, All};
ghost use Rattle.staat_model.specs.Sets.{IsSubset};
ghost use Rattle.staat_core.specs.declared.joins.Moving.TheVariants.{AnySide};
ghost use Rattle.staat_core.specs.Listed.{pairs_in_use};
ghost use Rattle.staat_core.specs.TableCores.{IsTableCore};
ghost use Rattle.staat_local.specs.Tightness.{IsMarkedPair};

use crate::touching::TouchMarks;
use staat_core::{Moving, PairList, TableCore};
use staat_model::PartSet;
use staat_planes::PlaneTable;

/// A core for sides that may grow by all marked pairs of `w`, which lies in the table's set.
pub(crate) fn marked_core(marks: &TouchMarks, table: &PlaneTable, w: PartSet) -> TableCore
    requires { IsSubset w table.now.of }
    ensures core { IsTableCore table.now result }
    ensures sides { result.moving ≡ AnySide }
    ensures marked { All (IsMarkedPair table.now marks.now) (pairs_in_use result.list) }
{
    let all = PairList::of(table, w);
    let mut marked = PairList::none();
    for pair in all.pairs() {
        if marks[table.slot(*pair) as usize] {
            marked.put(*pair);
        }
    }
    TableCore::new(table, marked, Moving::AnySide)
}
