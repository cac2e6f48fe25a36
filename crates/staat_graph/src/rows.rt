// Groups of parts that reach each other, in graphs in rows of marks, on any number of parts.
ghost use Rattle.std.specs.Prelude.{◌≡◌, ◌+◌, ◌<◌, ◌^◌, ◌⊎◌, ◌↔◌, ◌&&◌, ◌||◌, ℕ, [], false, All, Contains, IfOk};
ghost use Rattle.std.specs.Prelude.{IsTrue, get_or, length, map};
ghost use Rattle.std.specs.Ordering.{nat_cmp};
ghost use Rattle.staat_vec.specs.Lists.{Lists};
ghost use Rattle.staat_model.specs.SetLists.{set_of};
ghost use Rattle.staat_model.specs.Sets.{below};
ghost use Rattle.staat_graph.specs.Graphs.{AreGroups, HasArc};
ghost use Rattle.staat_graph.specs.Rows.{
  AllLeadOn,
  AreAscendingBelow,
  AreWalkRows,
  HasMark,
  IsMutualMark,
  IsSquare,
  LeadsOn,
  row_word,
};

use staat_vec::{Listed, OutOfMemory};
use std::alloc::Global;
use std::marker::Model;

/// For each part whether an arc leads to it.
pub type Row = Listed<bool>;

/// Part numbers, ascending.
pub type PartNumbers = Listed<u32>;

// A row that is changed, seen as its marks.
#[derive(Drop)]
struct Marks {
    marks: Vec<bool>,
}

impl Model for Marks {
    ghost use Rattle.std.specs.Prelude.{List, Bool};

    ghost Value = { List Bool };

    ghost view = { λ a. a.marks.items };
}

impl Marks {
    // a copy of marks
    fn copied(alloc: Global, marks: &[bool]) -> Result<Marks, OutOfMemory>
        ensures { IfOk result (λ copy. copy ≡ marks.now) }
    {
        let marks = marks.to_vec(alloc)?;
        Ok(Marks { marks })
    }

    fn as_slice(&self) -> &[bool]
        ensures { result.now ≡ self.now }
    {
        self.marks.as_slice()
    }

    // marks, where the place k is marked, what the row of k marks too
    fn lead_on(&mut self, k: usize, through: &[bool])
        requires place { k < length self.old }
        requires count { length through.now ≡ length self.old }
        ensures { LeadsOn k through.now self.old self.new }
    {
        if self.marks[k] {
            join(self.marks.as_mut_slice(), through);
        }
    }
}

// marks what another row marks too
fn join(marks: &mut [bool], others: &[bool])
    requires { length others.now ≡ length marks.old }
    ensures count { length marks.new ≡ length marks.old }
    ensures marks { (j : ℕ) → get_or marks.new j false ≡ (get_or marks.old j false || get_or others.now j false) }
{
    for j in 0..others.len() {
        marks[j] = marks[j] | others[j];
    }
}

// lets each row that leads to the place k lead on to where k leads
fn lead_all_on(alloc: Global, table: &mut Vec<Marks>, k: usize) -> Result<(), OutOfMemory>
    requires square { IsSquare table.old.items }
    requires place { k < length table.old.items }
    ensures { IfOk result (λ _. AllLeadOn k table.old.items table.new.items) }
{
    let through = Marks::copied(alloc, table[k].as_slice())?;
    for i in 0..table.len() {
        table[i].lead_on(k, through.as_slice());
    }
    Ok(())
}

// a copy of the rows
fn copied_rows(alloc: Global, rows: &[Row]) -> Result<Vec<Marks>, OutOfMemory>
    ensures { IfOk result (λ table. table.items ≡ rows.now) }
{
    let mut table = Vec::new(alloc);
    for row in rows {
        table.push(Marks::copied(alloc, row.as_slice())?)?;
    }
    Ok(table)
}

// From where to where walks lead: one place after the other is let through (Warshall, 1962).
fn walk_rows(alloc: Global, rows: &[Row]) -> Result<Vec<Marks>, OutOfMemory>
    requires { IsSquare rows.now }
    ensures { IfOk result (λ table. AreWalkRows rows.now table.items) }
{
    let mut table = copied_rows(alloc, rows)?;
    for k in 0..rows.len() {
        lead_all_on(alloc, &mut table, k)?;
    }
    Ok(table)
}

// whether a walk along at least one arc leads from i to j
fn has_mark(table: &[Marks], i: usize, j: usize) -> bool
    requires square { IsSquare table.now }
    requires i { i < length table.now }
    requires j { j < length table.now }
    ensures { IsTrue result ↔ HasMark table.now i j }
{
    let row = table[i].as_slice();
    row[j]
}

fn is_mutual(table: &[Marks], p: usize, q: usize) -> bool
    requires square { IsSquare table.now }
    requires p { p < length table.now }
    requires q { q < length table.now }
    ensures { IsTrue result ↔ IsMutualMark table.now p q }
{
    q == p || has_mark(table, p, q) && has_mark(table, q, p)
}

// the parts that p reaches and that reach it, p among them
fn group_of(alloc: Global, table: &[Marks], p: usize) -> Result<Vec<u32>, OutOfMemory>
    requires square { IsSquare table.now }
    requires p { p < length table.now }
    requires few { length table.now < 2 ^ 32 }
    ensures { IfOk result (λ group.
        Lists nat_cmp (λ q. (q < length table.now) × IsMutualMark table.now p q) group.items) }
{
    let mut group = Vec::new(alloc);
    for q in 0..table.len() {
        if is_mutual(table, p, q) {
            group.push(q as u32)?;
        }
    }
    Ok(group)
}

// whether p comes first in a group
fn is_first(group: &[u32], p: usize) -> bool
    ensures { IsTrue result ↔ ((0 < length group.now) × (get_or group.now 0 0 ≡ p)) }
{
    group.len() > 0 && group[0] as usize == p
}

/// The groups of parts that reach each other, in order of their least part, where a row of marks for each part tells
/// to which parts arcs lead.
pub fn row_groups(alloc: Global, rows: &[Row]) -> Result<Vec<PartNumbers>, OutOfMemory>
    requires square { IsSquare rows.now }
    requires few { length rows.now < 2 ^ 32 }
    ensures groups { IfOk result (λ groups.
        AreGroups (HasArc (map row_word rows.now)) (below (length rows.now)) (map set_of groups.items)) }
    ensures numbers { IfOk result (λ groups. All (AreAscendingBelow (length rows.now)) groups.items) }
{
    let table = walk_rows(alloc, rows)?;
    let mut groups = Vec::new(alloc);
    for p in 0..table.len() {
        let group = group_of(alloc, table.as_slice(), p)?;
        if is_first(group.as_slice(), p) {
            groups.push(PartNumbers::from_vec(group))?;
        }
    }
    Ok(groups)
}
