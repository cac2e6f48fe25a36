// Cells from the first two cells on their borders.
ghost use Rattle.std.specs.Prelude.{◌≡◌, ◌<◌, All, IfOk, length, map};
ghost use Rattle.staat_vec.specs.Vectors.{IsWithin};
ghost use Rattle.staat_cells.specs.Compositions.{HaveEqualLengths, HavePairs, begins_cell, begun_up_to, composed};
ghost use Rattle.staat_cells.specs.Compositions.{composed_up_to, entry_of, same_words};
ghost use Rattle.staat_cells.specs.Skeletons.{IsFoundAt};
ghost use Rattle.staat_cells.specs.Beside.{then_sign};

use crate::cell::{Cell, Signs};
use crate::incidence::Incidence;
use staat_model::Kind;
use staat_vec::{EDGE, OutOfMemory, Sign, add};
use std::alloc::Global;

// the first sign, or the second where the first is zero
fn then_sign(first: Sign, second: Sign) -> Sign
    ensures { result ≡ then_sign first second }
{
    match first {
        Sign::Zero => second,
        _ => first,
    }
}

// at each plane the first sign, or the second where the first is zero
#[tactic(auto, using(crate::proofs::Composing::compose_next))]
fn composed_signs(alloc: Global, first: &[Sign], second: &[Sign]) -> Result<Vec<Sign>, OutOfMemory>
    requires { length first.now ≡ length second.now }
    ensures { IfOk result (λ signs. signs.items ≡ composed first.now second.now) }
{
    let mut signs = first.to_vec(alloc)?;
    for i in 0..first.len() {
        signs[i] = then_sign(signs[i], second[i]);
    }
    Ok(signs)
}

// whether two incidences have the same signs: then no bit is in one word alone
#[tactic(auto, using(crate::proofs::Composing::words_same))]
fn same_words(x: Incidence, y: Incidence) -> bool
    ensures { result ≡ same_words x y }
{
    (x.a ^ y.a) | ((x.b ^ y.b) | ((x.c ^ y.c) | (x.d ^ y.d))) == 0
}

// whether no incidence of the same cell stands just before
fn begins_cell(incidences: &[Incidence], i: usize) -> bool
    requires { i < length incidences.now }
    ensures { result ≡ begins_cell incidences.now i }
{
    i == 0 || !same_words(incidences[i - 1], incidences[i])
}

/// The cell that begins at the place `i` of the incidences, if one does: it is between the first two cells whose
/// incidence it is.
pub(crate) fn composed_at(
    alloc: Global,
    kind: Kind,
    lower: &[Cell],
    incidences: &[Incidence],
    i: usize,
) -> Result<Option<Cell>, OutOfMemory>
    requires place { i < length incidences.now }
    requires pairs { HavePairs incidences.now (length lower.now) }
    requires size { All (λ c. IsWithin EDGE c.d) lower.now }
    requires signs { HaveEqualLengths lower.now }
    ensures { IfOk result (IsFoundAt kind (map entry_of lower.now) incidences.now i) }
{
    if !begins_cell(incidences, i) {
        return Ok(None);
    }
    let first = &lower[incidences[i].of];
    let second = &lower[incidences[i + 1].of];
    let signs = composed_signs(alloc, first.signs.as_slice(), second.signs.as_slice())?;
    Ok(Some(Cell {
        kind,
        d: add(first.d, second.d),
        signs: Signs::from_vec(signs),
    }))
}

/// The incidences at which the cells begin.
pub(crate) fn begun(alloc: Global, incidences: &[Incidence]) -> Result<Vec<Incidence>, OutOfMemory>
    ensures { IfOk result (λ found. found.items ≡ begun_up_to incidences.now (length incidences.now)) }
{
    let mut found = Vec::with_capacity(alloc, incidences.len() / 2)?;
    for i in 0..incidences.len() {
        if begins_cell(incidences, i) {
            found.push(incidences[i])?;
        }
    }
    Ok(found)
}

/// The cells of the incidences.
pub(crate) fn composed_cells(
    alloc: Global,
    kind: Kind,
    lower: &[Cell],
    incidences: &[Incidence],
) -> Result<Vec<Cell>, OutOfMemory>
    requires pairs { HavePairs incidences.now (length lower.now) }
    requires size { All (λ c. IsWithin EDGE c.d) lower.now }
    requires signs { HaveEqualLengths lower.now }
    ensures { IfOk result (λ cells. map entry_of cells.items
        ≡ composed_up_to kind (map entry_of lower.now) incidences.now (length incidences.now)) }
{
    let mut cells = Vec::with_capacity(alloc, incidences.len() / 2)?;
    for i in 0..incidences.len() {
        if let Some(cell) = composed_at(alloc, kind, lower, incidences, i)? {
            cells.push(cell)?;
        }
    }
    Ok(cells)
}
