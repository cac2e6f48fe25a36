// The command `look`: what the parts are.
ghost use Rattle.std.specs.Prelude.{[]};
ghost use Rattle.staat_input.specs.Opened.{OpensSomeOf};
ghost use Rattle.staat_input.specs.declared.limits.TheConstants.Limits.{ASSEMBLY};
ghost use Rattle.staat_words.specs.Requests.{IsAsked};
ghost use Rattle.staat_directions.specs.Looking.{LookWork};
ghost use Rattle.staat_input.specs.Causes.{HasCause};
ghost use Rattle.staat_input.specs.Taking.{DoesWork};

use staat_edge::Shelf;
use staat_fault::Fault;
use staat_input::{Answer, read_sound};
use staat_text::look_text;
use staat_words::Asked;
use std::alloc::Global;

/// The answer to the command `look`: a line for each part, and that they are sound.
pub fn look<H: Shelf>(alloc: Global, asked: &Asked, shelf: &mut H) -> Result<Answer, Fault>
    requires { IsAsked asked.now }
    ensures { DoesWork (LookWork asked.now) (OpensSomeOf ASSEMBLY asked.now.input []) HasCause
        (H.told shelf.old) (H.told shelf.new) result }
{
    let sound = read_sound(alloc, shelf, asked)?;
    let text = look_text(alloc, &sound)?;
    Ok(Answer { status: 0, text })
}
