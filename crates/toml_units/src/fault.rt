ghost use Rattle.std.specs.Prelude.{◌≡◌};
ghost use Rattle.toml_units.specs.declared.fault.CertificateFault.TheVariants as certificates;

use std::alloc::{AllocError, AllocFailed};

/// Why bytes are no certificate.
#[derive(Debug, Clone, Copy, PartialEq, Eq, Drop)]
pub enum CertificateFault {
    /// They are not the text of a certificate with numbers below 2^64.
    BadCertificate,
    /// A growth was refused.
    NoMemory,
}

impl From<AllocError> for CertificateFault {
    ghost from_gives = { λ _ e. e ≡ certificates.NoMemory };

    fn from(_: AllocError) -> CertificateFault {
        CertificateFault::NoMemory
    }
}

impl<T: Drop> From<AllocFailed<T>> for CertificateFault {
    ghost from_gives = { λ _ e. e ≡ certificates.NoMemory };

    fn from(_: AllocFailed<T>) -> CertificateFault {
        CertificateFault::NoMemory
    }
}
