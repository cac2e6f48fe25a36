// The likely directions, and what is asked along them.
ghost use Rattle.std.specs.Prelude.{◌≡◌, ◌≤◌, All, IfOk, OnOk, length};
ghost use Rattle.std.specs.List.{range_with_len};
ghost use Rattle.staat_motion.specs.Motions.{AreBodies};
ghost use Rattle.staat_decide.specs.Asking.{AreAskedRows};
ghost use Rattle.staat_decide.specs.Keeping.{AreKept};

use crate::directions::likely_directions;
use crate::likely::{AskedRows, asked_along, is_direction, takes_all_apart};
use crate::planes::AXES;
use crate::scene::Scene;
use crate::table::{KeptTable, table_for};
use staat_cone::FacetSource;
use staat_model::Part;
use staat_motion::Bodies;
use staat_vec::{OutOfMemory, V3, is_same};
use std::alloc::Global;

// whether it was asked along this direction
fn was_asked(asked: &[AskedRows], d: V3) -> bool {
    for one in asked {
        if is_same(one.d, d) {
            return true;
        }
    }
    false
}

// asks along the directions one after the other, if they are some and were not asked along before, until one takes all
// parts apart
fn ask_along<F: FacetSource>(
    asked: &mut Vec<AskedRows>,
    table: &mut KeptTable,
    scene: &Scene<F>,
    all: &[u32],
    directions: &[V3],
) -> Result<bool, OutOfMemory>
    requires bodies { AreBodies scene.now.parts.now scene.now.bodies.now }
    requires all { all.now ≡ range_with_len 0 (length scene.now.parts.now) }
    requires asked { All (AreAskedRows scene.now.parts.now) asked.old.items }
    requires some { 1 ≤ length table.old.items }
    requires kept { AreKept scene.now.parts.now table.old.items }
    ensures some { length table.new.items ≡ length table.old.items }
    ensures kept { AreKept scene.now.parts.now table.new.items }
    ensures asked { OnOk result (All (AreAskedRows scene.now.parts.now) asked.new.items) }
{
    for d in directions {
        if !is_direction(*d) || was_asked(asked.as_slice(), *d) {
            continue;
        }
        let k = asked.len();
        asked.push(asked_along(table, scene, all, *d)?)?;
        if takes_all_apart(scene.alloc, scene.parts, &asked[k], all)? {
            return Ok(true);
        }
    }
    Ok(false)
}

// asks along likely directions: the axes, and where none of them takes all parts apart some more
fn ask_all<F: FacetSource>(
    asked: &mut Vec<AskedRows>,
    scene: &Scene<F>,
    all: &[u32],
) -> Result<bool, OutOfMemory>
    requires bodies { AreBodies scene.now.parts.now scene.now.bodies.now }
    requires all { all.now ≡ range_with_len 0 (length scene.now.parts.now) }
    requires asked { All (AreAskedRows scene.now.parts.now) asked.old.items }
    ensures { OnOk result (All (AreAskedRows scene.now.parts.now) asked.new.items) }
{
    let mut table = table_for(scene.alloc, scene.parts)?;
    if ask_along(asked, &mut table, scene, all, &AXES)? {
        return Ok(true);
    }
    let more = likely_directions(scene, all)?;
    ask_along(asked, &mut table, scene, all, more.as_slice())
}

/// What is asked along likely directions.
pub fn asked_of<F: FacetSource>(
    scene: &Scene<F>,
    all: &[u32],
) -> Result<Vec<AskedRows>, OutOfMemory>
    requires bodies { AreBodies scene.now.parts.now scene.now.bodies.now }
    requires all { all.now ≡ range_with_len 0 (length scene.now.parts.now) }
    ensures { IfOk result (λ asked. All (AreAskedRows scene.now.parts.now) asked.items) }
{
    let mut asked = Vec::new(scene.alloc);
    ask_all(&mut asked, scene, all)?;
    Ok(asked)
}
