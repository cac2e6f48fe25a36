// What words ask for, with each value after the defaults and limits of its option.
use staat_vec::{Name, Names, V3};
use std::alloc::{AllocError, AllocFailed};
use thiserror::Error;

/// Where the parts come from.
#[derive(Drop)]
pub enum Input {
    /// A part list.
    Manifest(Name),
    /// Files, each one part of one piece: 1 to [`MOST_PARTS`](staat_limits::MOST_PARTS), or to
    /// [`MOST_PRODUCT_PARTS`](staat_limits::MOST_PRODUCT_PARTS) where the product may be of any size.
    Files(Names),
}

/// The parts that are asked about.
#[derive(Drop)]
pub struct Asked {
    /// By how many decimal digits coordinates are scaled, 0 to 6.
    pub digits: u32,
    pub input: Input,
}

/// Whether a wall shows that the first file's piece never meets the second's along a direction.
#[derive(Drop)]
pub struct PairRequest {
    /// By how many decimal digits coordinates are scaled, 0 to 6.
    pub digits: u32,
    /// The direction in which the first piece moves: not zero, at most `DIRECTION` in a component.
    pub along: V3,
    /// The wall's normal, from the first piece to the second: not zero, at most `NORMAL` in a component.
    pub wall: V3,
    pub first: Name,
    pub second: Name,
}

/// Which parts block which along a direction.
#[derive(Drop)]
pub struct GraphRequest {
    pub asked: Asked,
    /// The direction in which parts move: not zero, at most `DIRECTION` in a component.
    pub along: V3,
}

/// A plan that takes the parts apart, or parts that no plan takes apart.
#[derive(Drop)]
pub struct PlanRequest {
    pub asked: Asked,
    /// How many planes all parts may have, 3 to `MOST_PLANES`; where the plan is robust, at most `MOST_CELL_PLANES`.
    pub planes: u32,
    /// Whether steps lead into open cells where they can.
    pub robust: bool,
    /// The version, 1 or 2, of the certificate that is asked for in the place of the steps.
    pub certificate: Option<u32>,
}

/// The cells into which the planes of all parts cut the directions, each with its blocking graph.
#[derive(Drop)]
pub struct CellsRequest {
    pub asked: Asked,
    /// How many planes all parts may have, 3 to `MOST_CELL_PLANES`.
    pub planes: u32,
}

/// How far each part moves, so that all parts stand apart for a drawing.
#[derive(Drop)]
pub struct ExplodeRequest {
    pub asked: Asked,
    /// How many planes all parts may have, 3 to `MOST_PLANES`.
    pub planes: u32,
    /// Whether the drawing itself is asked for, as an OFF file.
    pub off: bool,
}

/// In what order the parts can be taken away, one at a time.
#[derive(Drop)]
pub struct LinearRequest {
    pub asked: Asked,
    /// How many planes all parts may have, 3 to `MOST_PLANES`.
    pub planes: u32,
}

/// Whether some side of the parts begins to move.
#[derive(Drop)]
pub struct LocalRequest {
    pub asked: Asked,
    /// How many planes all parts may have, 3 to `MOST_PLANES`.
    pub planes: u32,
}

/// A plan for a product of any size, or parts of it that are stuck.
#[derive(Drop)]
pub struct DecideRequest {
    pub asked: Asked,
    /// Whether all that comes apart is taken apart, down to the groups of parts that are stuck.
    pub rest: bool,
    /// Whether a certificate is asked for in the place of the steps.
    pub certificate: bool,
}

/// Whether a certificate is valid for the parts.
#[derive(Drop)]
pub struct CheckRequest {
    pub asked: Asked,
    /// The certificate's file.
    pub certificate: Name,
}

/// A product that the program makes itself.
#[derive(Clone, Copy, Drop)]
pub enum DrillProduct {
    /// So many cubes in a row, 1 to 32.
    Cubes(u32),
    /// A cube in so many boxes, each around the one before, 1 to 6.
    Boxes(u32),
}

/// A command with its values.
#[derive(Drop)]
pub enum Request {
    Pair(PairRequest),
    /// What the parts are.
    Look(Asked),
    Graph(GraphRequest),
    Plan(PlanRequest),
    Check(CheckRequest),
    Cells(CellsRequest),
    /// The program tried on a product of its own.
    Drill(DrillProduct),
    Explode(ExplodeRequest),
    Linear(LinearRequest),
    Local(LocalRequest),
    /// A plan for a product of any size, or parts that are stuck.
    Decide(DecideRequest),
    /// Whether a short certificate is valid for a product of any size.
    Confirm(CheckRequest),
    /// Which parts of a product of any size block which along a direction.
    Blocks(GraphRequest),
}

/// Why words give no request.
#[derive(Clone, Copy, Debug, PartialEq, Eq, Error)]
pub enum RequestRefusal {
    /// No command takes the words, or a value breaks a rule.
    #[error("usage")]
    Usage,
    #[error("out of memory")]
    OutOfMemory,
}

impl From<AllocError> for RequestRefusal {
    ghost use Rattle.std.specs.Prelude.{◌≡◌};
    ghost use Rattle.staat_words.specs.declared.request.RequestRefusal.TheVariants.{OutOfMemory};

    ghost from_gives = { λ _ e. e ≡ OutOfMemory };

    fn from(_: AllocError) -> Self {
        RequestRefusal::OutOfMemory
    }
}

impl<T: Drop> From<AllocFailed<T>> for RequestRefusal {
    ghost use Rattle.std.specs.Prelude.{◌≡◌};
    ghost use Rattle.staat_words.specs.declared.request.RequestRefusal.TheVariants.{OutOfMemory};

    ghost from_gives = { λ _ e. e ≡ OutOfMemory };

    fn from(_: AllocFailed<T>) -> Self {
        RequestRefusal::OutOfMemory
    }
}
