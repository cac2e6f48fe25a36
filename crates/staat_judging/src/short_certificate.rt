// The short certificate that a file holds.
ghost use Rattle.std.specs.Prelude.{List, ℕ, IfOk, IfErr};
ghost use Rattle.staat_short.specs.ShortFeeds.{WasFedShort};
ghost use Rattle.staat_short.specs.ShortTexts.{IsShortInOrder};
ghost use Rattle.staat_input.specs.Work.{Follows};
ghost use Rattle.staat_input.specs.Causes.{ShelfSide};
ghost use Rattle.staat_judging.specs.Confirming.{IsShortCertificateIn, SaysShortCertificate};
ghost use Rattle.staat_judging.specs.Feeding.{IsFed};
ghost use Rattle.staat_judging.specs.Causes.{HasCertificateCause};
ghost use Rattle.staat_judging.specs.Reading.{ReadsCertificate};

use crate::feeding::{cert_fault, feed_named};
use staat_edge::Shelf;
use staat_fault::Fault;
use staat_short::{ShortCertificate, ShortReader};
use staat_vec::Name;
use std::alloc::Global;

// The short certificate whose text the reader was fed.
fn short_certificate_in(
    alloc: Global,
    reader: ShortReader,
    name: &Name,
) -> Result<ShortCertificate, Fault>
    requires { (text : List ℕ) × IsFed (WasFedShort reader) text }
    ensures says { (text : List ℕ) → IsFed (WasFedShort reader) text →
        Follows (SaysShortCertificate name.now text) result }
    ensures formed { IfOk result IsShortInOrder }
    ensures cause { (shelf : ShelfSide) → IfErr result (HasCertificateCause name.now shelf) }
{
    match reader.finish() {
        Ok(certificate) => Ok(certificate),
        Err(refusal) => Err(cert_fault(name.copied(alloc)?, refusal)),
    }
}

/// The short certificate that a file holds. That the file cannot be read to its end, and that it is too long, come
/// before what it says.
pub fn read_short_certificate<H: Shelf>(
    alloc: Global,
    shelf: &mut H,
    name: &Name,
) -> Result<ShortCertificate, Fault>
    ensures takes { ReadsCertificate (λ files. IsShortCertificateIn files name.now) name.now
        (H.told shelf.old) (H.told shelf.new) result }
    ensures formed { IfOk result IsShortInOrder }
{
    let mut reader = ShortReader::new(alloc)?;
    feed_named(alloc, shelf, name, &mut reader)?;
    short_certificate_in(alloc, reader, name)
}
