//! Laws of the finding that the streams determine, as the contracts of functions that do nothing:
//! each clause is a theorem over the definitions of `specs/`, and a proof that calls the function
//! may use it.

ghost use Rattle.std.specs.Prelude.{◌≡◌, ◌⊎◌, ℕ, List};
ghost use Rattle.st_core.specs.Run.{Stream};
ghost use Rattle.st_core.specs.Streams.{IsStreams};
ghost use Rattle.st_plan.specs.Plain.{IsPlain};
ghost use Rattle.st_plan.specs.Full.{IsFullyShown};
ghost use Rattle.st_audit.specs.declared.finding.Finding.{Finding as FindingValue};
ghost use Rattle.st_audit.specs.Construction.{IsAudit};
ghost use Rattle.st_audit.specs.Findings.{HasCertificate, IsFinding};

/// Streams have at most one finding, its acts and pairs included. So `audit` returns the same
/// finding each time, for every number of threads, unless memory runs out.
pub fn one_finding()
    ensures { (top : ℕ) (streams : List Stream) (one other : FindingValue) → IsAudit top streams one
        → IsAudit top streams other → one ≡ other }
{}

/// The finding holds of the streams: it is a certificate that the checker accepts, or the event
/// that it names is there and its reason holds at it.
pub fn findings_hold()
    ensures { (top : ℕ) (streams : List Stream) (found : FindingValue) → IsStreams streams
        → IsAudit top streams found → IsFinding top streams found }
{}

/// The finding is a certificate if the streams are plain, or if a run without a reset that
/// reported everything shows them.
pub fn certain_streams_fit()
    ensures { (top : ℕ) (streams : List Stream) (found : FindingValue) → IsStreams streams
        → IsPlain top streams ⊎ IsFullyShown top streams → IsAudit top streams found
        → HasCertificate found }
{}
