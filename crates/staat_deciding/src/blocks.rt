// The command `blocks`: who blocks whom along a direction, in a product of any size.
ghost use Rattle.std.specs.Prelude.{[]};
ghost use Rattle.staat_input.specs.Opened.{OpensSomeOf};
ghost use Rattle.staat_input.specs.declared.limits.TheConstants.Limits.{PRODUCT};
ghost use Rattle.staat_vec.specs.Vectors.{IsWithin};
ghost use Rattle.staat_words.specs.Requests.{IsBlocksRequest};
ghost use Rattle.staat_directions.specs.Graphing.{IsGraphed};
ghost use Rattle.staat_input.specs.Causes.{HasCause};
ghost use Rattle.staat_input.specs.Taking.{DoesWork, IsWorkedOut};
ghost use Rattle.staat_deciding.specs.Blocks.{BlocksWork};

use staat_cone::Scan;
use staat_decide::{numbers, rows_of};
use staat_edge::Shelf;
use staat_fault::Fault;
use staat_input::{Answer, read_product};
use staat_model::SoundProduct;
use staat_motion::{Along, Bodies};
use staat_text::rows_text;
use staat_vec::{DIRECTION, V3};
use staat_words::GraphRequest;
use std::alloc::Global;

// The text of the blocking graph along a direction. Each two parts are asked about once, in either order.
fn graphed(alloc: Global, product: &SoundProduct, along: V3) -> Result<Answer, Fault>
    requires { IsWithin DIRECTION along }
    ensures { IsWorkedOut (IsGraphed product.now along) result }
{
    let parts = product.product().as_slice();
    let bodies = Bodies::of(alloc, parts)?;
    let motion = Along::of(alloc, parts, &bodies, along)?;
    let all = numbers(alloc, parts.len() as u32)?;
    let rows = rows_of(alloc, &Scan, parts, &motion, all.as_slice())?;
    let text = rows_text(alloc, along, rows.as_slice())?;
    Ok(Answer { status: 0, text })
}

/// The answer to the command `blocks`: the arcs of the blocking graph of a product along a direction, and its strong
/// groups.
pub fn blocks<H: Shelf>(
    alloc: Global,
    request: &GraphRequest,
    shelf: &mut H,
) -> Result<Answer, Fault>
    requires { IsBlocksRequest request.now }
    ensures { DoesWork (BlocksWork request.now) (OpensSomeOf PRODUCT request.now.asked.input []) HasCause
        (H.told shelf.old) (H.told shelf.new) result }
{
    let product = read_product(alloc, shelf, &request.asked)?;
    graphed(alloc, &product, request.along)
}
