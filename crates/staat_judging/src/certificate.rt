// The certificate that a file holds.
ghost use Rattle.std.specs.Prelude.{List, ℕ, IfOk, IfErr};
ghost use Rattle.staat_cert.specs.Feeds.{WasFed};
ghost use Rattle.staat_model.specs.Texts.{IsWellFormed};
ghost use Rattle.staat_input.specs.Work.{Follows};
ghost use Rattle.staat_input.specs.Causes.{ShelfSide};
ghost use Rattle.staat_judging.specs.Checking.{IsCertificateIn, SaysCertificate};
ghost use Rattle.staat_judging.specs.Feeding.{IsFed};
ghost use Rattle.staat_judging.specs.Causes.{HasCertificateCause};
ghost use Rattle.staat_judging.specs.Reading.{ReadsCertificate};

use crate::feeding::{cert_fault, feed_named};
use staat_cert::CertReader;
use staat_edge::Shelf;
use staat_fault::Fault;
use staat_model::Certificate;
use staat_vec::Name;
use std::alloc::Global;

// The certificate whose text the reader was fed.
fn certificate_in(alloc: Global, reader: CertReader, name: &Name) -> Result<Certificate, Fault>
    requires { (text : List ℕ) × IsFed (WasFed reader) text }
    ensures says { (text : List ℕ) → IsFed (WasFed reader) text →
        Follows (SaysCertificate name.now text) result }
    ensures formed { IfOk result IsWellFormed }
    ensures cause { (shelf : ShelfSide) → IfErr result (HasCertificateCause name.now shelf) }
{
    match reader.finish() {
        Ok(certificate) => Ok(certificate),
        Err(refusal) => Err(cert_fault(name.copied(alloc)?, refusal)),
    }
}

/// The certificate that a file holds. That the file cannot be read to its end, and that it is too long, come before
/// what it says.
pub fn read_certificate<H: Shelf>(
    alloc: Global,
    shelf: &mut H,
    name: &Name,
) -> Result<Certificate, Fault>
    ensures takes { ReadsCertificate (λ files. IsCertificateIn files name.now) name.now
        (H.told shelf.old) (H.told shelf.new) result }
    ensures formed { IfOk result IsWellFormed }
{
    let mut reader = CertReader::new(alloc)?;
    feed_named(alloc, shelf, name, &mut reader)?;
    certificate_in(alloc, reader, name)
}
