// Lists of vectors in order.
ghost use Rattle.std.specs.Prelude.{Contains};
ghost use Rattle.staat_vec.specs.Lists.{Lists};
ghost use Rattle.staat_vec.specs.Vectors.{vector_cmp};

use crate::normal::Normal;
use crate::vector::V3;

/// The members of the list, ascending and each once. It takes no memory.
pub fn in_order(mut list: Vec<V3>) -> Vec<V3>
    ensures { Lists vector_cmp (Contains list.items) result.items }
{
    list.sort_unstable();
    list.dedup();
    list
}

/// The members of a list of normals, ascending and each once. It takes no memory.
pub fn normals_in_order(mut list: Vec<Normal>) -> Vec<Normal>
    ensures { Lists vector_cmp (Contains list.items) result.items }
{
    list.sort_unstable();
    list.dedup();
    list
}
