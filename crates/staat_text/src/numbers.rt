// The numbers of parts, and their text.
ghost use Rattle.std.specs.Prelude.{◌≡◌, ◌++◌, IfOk};
ghost use Rattle.staat_text.specs.PlanTexts.{number_text, numbers_text, part_numbers};

use staat_limits::MOST_PARTS;
use staat_model::PartSet;
use staat_number::push_number;
use std::alloc::{AllocError, Global};

/// The numbers in a set, ascending.
pub fn numbers_of(alloc: Global, w: PartSet) -> Result<Vec<u32>, AllocError>
    ensures { IfOk result (λ numbers. numbers.items ≡ part_numbers w) }
{
    // all members are below the number of bits
    let _bits = w.bits();
    let mut numbers = Vec::new(alloc);
    for p in 0..MOST_PARTS {
        if w.has(p) {
            numbers.push(p)?;
        }
    }
    Ok(numbers)
}

// Adds the number of a part, after the space that parts it from what is before.
fn push_part(text: &mut Vec<u8>, p: u32) -> Result<(), AllocError>
    ensures { IfOk result (λ _. text.new.items ≡ text.old.items ++ number_text p) }
{
    text.push(b' ')?;
    push_number(text, p as i128)
}

/// Adds the numbers, each after a space.
pub(crate) fn push_numbers(text: &mut Vec<u8>, numbers: &[u32]) -> Result<(), AllocError>
    ensures { IfOk result (λ _. text.new.items ≡ text.old.items ++ numbers_text numbers.now) }
{
    for p in numbers {
        push_part(text, *p)?;
    }
    Ok(())
}

/// The numbers, each after a space.
pub fn numbers_text(alloc: Global, numbers: &[u32]) -> Result<Vec<u8>, AllocError>
    ensures { IfOk result (λ text. text.items ≡ numbers_text numbers.now) }
{
    let mut text = Vec::new(alloc);
    push_numbers(&mut text, numbers)?;
    Ok(text)
}
