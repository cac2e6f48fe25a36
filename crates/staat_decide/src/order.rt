// Whether labels of parts ascend against all arcs.
ghost use Rattle.std.specs.Prelude.{◌≡◌, ◌<◌, ◌↔◌, All, IsTrue, length};
ghost use Rattle.staat_decide.specs.Labels.{KeepsOrder, LeadsBack};

use crate::arcs::Row;

/// Whether each label is below the count.
pub fn all_below(labels: &[u32], count: u32) -> bool
    ensures { IsTrue result ↔ All (λ l. l < count) labels.now }
{
    for l in labels {
        if *l >= count {
            return false;
        }
    }
    true
}

// whether the arcs of a part lead only to parts whose label is not above its own
fn row_keeps(row: &[bool], labels: &[u32], own: u32) -> bool
    requires { length row.now ≡ length labels.now }
    ensures { IsTrue result ↔ LeadsBack row.now labels.now own }
{
    for j in 0..labels.len() {
        if row[j] && own < labels[j] {
            return false;
        }
    }
    true
}

// whether no arc leads to a greater label
fn rows_keep(rows: &[Row], labels: &[u32]) -> bool
    requires rows { length rows.now ≡ length labels.now }
    requires each { All (λ row. length row ≡ length labels.now) rows.now }
    ensures { IsTrue result ↔ KeepsOrder rows.now labels.now }
{
    for i in 0..labels.len() {
        if !row_keeps(rows[i].as_slice(), labels, labels[i]) {
            return false;
        }
    }
    true
}

/// Whether the labels are below the count, and no arc leads to a greater one.
pub fn keeps_order(rows: &[Row], labels: &[u32], count: u32) -> bool
    requires rows { length rows.now ≡ length labels.now }
    requires each { All (λ row. length row ≡ length labels.now) rows.now }
    ensures { IsTrue result ↔ (All (λ l. l < count) labels.now × KeepsOrder rows.now labels.now) }
{
    all_below(labels, count) && rows_keep(rows, labels)
}
