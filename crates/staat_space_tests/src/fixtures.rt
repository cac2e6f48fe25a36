// Pieces, parts and assemblies that several tests share.
ghost use Rattle.staat_pairs.specs.Tables.{WasMadeFrom};

use staat_asm::build;
use staat_cone::Plain;
use staat_limits::MOST_PLANES;
use staat_model::{Assembly, Part, PartSet, Piece, Sound};
use staat_planes::{PlaneTable, tabulate};
use staat_samples::{assembly_of, at, boxed, part_of, prism};
use staat_vec::V3;
use std::alloc::Global;
use std::fmt::{Debug, Display};
use std::process::Abort;

/// The corners of a box: x, y and z of the least one, and those of the greatest.
pub type Corners = [i128; 6];

/// The base of a prism in (x, z); y is from 0 to 4.
pub type Base = [(i128, i128); 4];

/// A part: boxes, or prisms.
#[derive(Clone, Copy)]
pub enum Shape<'a> {
    Boxes(&'a [Corners]),
    Prisms(&'a [Base]),
}

/// The cube from 0 to 2.
pub const CUBE: Corners = [0, 0, 0, 2, 2, 2];

/// A cube that touches it in a face.
pub const BESIDE: Corners = [2, 0, 0, 4, 2, 2];

// the walls of a box about the cube
pub const RIGHT: Corners = [2, -1, -1, 3, 3, 3];

pub const LEFT: Corners = [-1, -1, -1, 0, 3, 3];

pub const BEHIND: Corners = [-1, 2, -1, 3, 3, 3];

pub const BEFORE: Corners = [-1, -1, -1, 3, 0, 3];

pub const ABOVE: Corners = [-1, -1, 2, 3, 3, 3];

pub const BELOW: Corners = [-1, -1, -1, 3, 3, 0];

// a lid above the cube
pub const LID: Corners = [0, 0, 2, 2, 2, 3];

pub const TAIL: Base = [(-2, 0), (2, 0), (1, 2), (-1, 2)];

// the socket of the tail
pub const GROUND: Base = [(-4, -1), (4, -1), (4, 0), (-4, 0)];

pub const RIGHT_CHEEK: Base = [(2, 0), (4, 0), (4, 2), (1, 2)];

pub const LEFT_CHEEK: Base = [(-4, 0), (-2, 0), (-1, 2), (-4, 2)];

/// Two cubes that touch in a face.
pub const CUBES: [Shape<'static>; 2] = [Shape::Boxes(&[CUBE]), Shape::Boxes(&[BESIDE])];

/// The cube in a closed box.
pub const CLOSED: [Shape<'static>; 2] = [
    Shape::Boxes(&[CUBE]),
    Shape::Boxes(&[RIGHT, LEFT, BEHIND, BEFORE, ABOVE, BELOW]),
];

/// The cube in a box that is open above.
pub const OPEN: [Shape<'static>; 2] = [
    Shape::Boxes(&[CUBE]),
    Shape::Boxes(&[RIGHT, LEFT, BEHIND, BEFORE, BELOW]),
];

/// The same with a lid on it.
pub const LIDDED: [Shape<'static>; 3] = [
    Shape::Boxes(&[CUBE]),
    Shape::Boxes(&[RIGHT, LEFT, BEHIND, BEFORE, BELOW]),
    Shape::Boxes(&[LID]),
];

/// A tail in its socket.
pub const DOVETAIL: [Shape<'static>; 2] = [
    Shape::Prisms(&[TAIL]),
    Shape::Prisms(&[GROUND, RIGHT_CHEEK, LEFT_CHEEK]),
];

/// Two values, which are the same.
pub fn same<T: PartialEq + Debug>(rt: &impl Abort, found: &T, wanted: &T) {
    assert_eq!(rt; *found, *wanted);
}

/// Two vectors, which are the same.
pub fn same_vector(rt: &impl Abort, found: V3, wanted: V3) {
    same(rt, &found, &wanted);
}

/// A value and its text.
pub fn shows<T: Display>(rt: &impl Abort, alloc: Global, value: &T, wanted: &str) {
    let text = format!(in alloc; "{value}").expect(rt, "memory");
    same(rt, &text.as_str(), &wanted);
}

/// The box between these corners.
pub fn box_of(rt: &impl Abort, alloc: Global, corners: Corners) -> Piece {
    let [x, y, z, u, v, w] = corners;
    let piece = boxed(alloc, at(x, y, z), at(u, v, w));
    piece.expect(rt, "memory").expect(rt, "a box")
}

/// The prism over a base.
pub fn prism_of(rt: &impl Abort, alloc: Global, base: Base) -> Piece {
    prism(alloc, base)
        .expect(rt, "memory")
        .expect(rt, "a prism")
}

/// The pieces of a part.
pub fn pieces_of(rt: &impl Abort, alloc: Global, shape: Shape) -> Vec<Piece> {
    let mut pieces = Vec::new(alloc);
    match shape {
        Shape::Boxes(boxes) => {
            for corners in boxes {
                pieces
                    .push(box_of(rt, alloc, *corners))
                    .expect(rt, "memory");
            }
        }
        Shape::Prisms(bases) => {
            for base in bases {
                pieces.push(prism_of(rt, alloc, *base)).expect(rt, "memory");
            }
        }
    }
    pieces
}

/// Parts of these shapes.
pub fn parts_of(rt: &impl Abort, alloc: Global, shapes: &[Shape]) -> Vec<Part> {
    let mut parts = Vec::new(alloc);
    for shape in shapes {
        let part = part_of(alloc, pieces_of(rt, alloc, *shape));
        parts.push(part).expect(rt, "memory");
    }
    parts
}

/// The assembly of these parts.
pub fn assembly(rt: &impl Abort, alloc: Global, shapes: &[Shape]) -> Assembly {
    assembly_of(parts_of(rt, alloc, shapes)).expect(rt, "an assembly")
}

/// The same, of which no pieces of different parts overlap.
pub fn sound(rt: &impl Abort, alloc: Global, shapes: &[Shape]) -> Sound {
    build(alloc, &Plain, assembly(rt, alloc, shapes)).expect(rt, "sound parts")
}

/// The table of the planes of all its parts.
pub fn table_of(rt: &impl Abort, alloc: Global, sound: &Sound) -> PlaneTable
    ensures { WasMadeFrom sound.now result }
{
    let all = PartSet::first(sound.assembly().parts());
    tabulate(alloc, &Plain, sound, all, MOST_PLANES).expect(rt, "few planes")
}

/// The table of all parts of an assembly.
pub fn table(rt: &impl Abort, alloc: Global, shapes: &[Shape]) -> PlaneTable {
    table_of(rt, alloc, &sound(rt, alloc, shapes))
}
