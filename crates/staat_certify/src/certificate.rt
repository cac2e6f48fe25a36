// The certificate of an outcome.
ghost use Rattle.std.specs.Prelude.{IfOk};
ghost use Rattle.staat_model.specs.Certify.{IsBodyOf, IsCertificateOf};
ghost use Rattle.staat_limits.specs.Versions.{IsVersion};
ghost use Rattle.staat_model.specs.Outcomes.{finding_of, stuck};
ghost use Rattle.staat_model.specs.Plans.{IsStuck};
ghost use Rattle.staat_model.specs.Texts.{IsWellFormed};
ghost use Rattle.staat_certify.specs.Certifying.{CanBeCertified, HasFewPlanes, IsValidFor};

use crate::listing::listing_of;
use crate::nodes::plan_body;
use crate::visits::visit_all;
use staat_cone::FacetSource;
use staat_limits::MOST_PLANES;
use staat_model::{Body, Certificate, Outcome, PartSet, Sound};
use staat_planes::{PlanesRefusal, tabulate};
use staat_vec::OutOfMemory;
use std::alloc::Global;

// what the certificate says of a set that is stuck
fn refusal_of<F: FacetSource>(
    alloc: Global,
    source: &F,
    sound: &Sound,
    w: PartSet,
    version: u32,
) -> Result<Body, OutOfMemory>
    requires stuck { IsStuck sound.now w }
    requires few { HasFewPlanes sound.now w MOST_PLANES }
    ensures { IfOk result (IsBodyOf sound.now version (stuck w)) }
{
    match tabulate(alloc, source, sound, w, MOST_PLANES) {
        Ok(table) => {
            let found = visit_all(alloc, sound, &table, version)?;
            listing_of(alloc, sound, &table, &found)
        }
        Err(PlanesRefusal::OutOfMemory) => Err(OutOfMemory),
        Err(PlanesRefusal::TooManyPlanes(_)) => unreachable!(),
    }
}

// what the certificate says of the outcome
fn body_of<F: FacetSource>(
    alloc: Global,
    source: &F,
    sound: &Sound,
    outcome: &Outcome,
    version: u32,
) -> Result<Body, OutOfMemory>
    requires { CanBeCertified sound.now (finding_of outcome.now) }
    ensures { IfOk result (IsBodyOf sound.now version (finding_of outcome.now)) }
{
    match outcome {
        Outcome::Plan { tree, .. } => plan_body(alloc, source, sound.assembly(), tree),
        Outcome::Stuck(w) => refusal_of(alloc, source, sound, *w, version),
    }
}

/// The certificate, of version 1 or 2, of an outcome.
///
/// The outcome is a plan that takes all parts apart, whose directions are at most
/// [`DIRECTION`](staat_vec::DIRECTION), or a set that is stuck and has at most [`MOST_PLANES`] planes; each outcome of
/// `plan` of staat_plan is one. The facets of two pieces are asked of `source` once. The certificate keeps the bounds
/// and orders of its text, and it is valid.
pub fn certify<F: FacetSource>(
    alloc: Global,
    source: &F,
    sound: &Sound,
    outcome: &Outcome,
    version: u32,
) -> Result<Certificate, OutOfMemory>
    requires version { IsVersion version }
    requires outcome { CanBeCertified sound.now (finding_of outcome.now) }
    ensures certificate { IfOk result (IsCertificateOf sound.now version (finding_of outcome.now)) }
    ensures form { IfOk result IsWellFormed }
    ensures valid { IfOk result (IsValidFor sound.now (finding_of outcome.now)) }
{
    let parts = sound.assembly().parts();
    let body = body_of(alloc, source, sound, outcome, version)?;
    Ok(Certificate {
        version,
        parts,
        body,
    })
}
