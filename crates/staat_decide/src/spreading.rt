// Marks on places, and what arcs between them lead to.
use crate::reach::Way;
/// An arc from one place of a list to another.
#[derive(Clone, Copy)]
pub struct Lead {
    pub from: usize,
    pub to: usize,
}

/// The arc back.
pub fn turned(lead: Lead) -> Lead {
    Lead {
        from: lead.to,
        to: lead.from,
    }
}

/// Whether the place is marked.
pub fn is_marked(marks: &[bool], i: usize) -> bool {
    i < marks.len() && marks[i]
}

/// Marks a place, and says whether it was not marked before
pub fn mark(marks: &mut Vec<bool>, i: usize) -> bool {
    if i < marks.len() && !marks[i] {
        marks[i] = true;
        return true;
    }
    false
}

/// Whether all places are marked.
pub fn are_all(marks: &[bool]) -> bool {
    !marks.contains(&false)
}

/// Marks the first place alone.
pub fn mark_first(marks: &mut Vec<bool>) {
    for (k, m) in marks.iter_mut().enumerate() {
        *m = k == 0;
    }
}

// marks what arcs lead to from marked places, and says whether that was anything
fn spread(leads: &[Lead], way: Way, marks: &mut Vec<bool>) -> bool {
    let mut more = false;
    for lead in leads {
        let arc = match way {
            Way::Ahead => *lead,
            Way::Back => turned(*lead),
        };
        if is_marked(marks.as_slice(), arc.from) && mark(marks, arc.to) {
            more = true;
        }
    }
    more
}

/// Marks all that arcs lead to on the way from marked places.
pub fn spread_all(leads: &[Lead], way: Way, marks: &mut Vec<bool>) {
    for _ in 0..leads.len() {
        if !spread(leads, way, marks) {
            return;
        }
    }
}
