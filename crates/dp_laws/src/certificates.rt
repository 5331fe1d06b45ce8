ghost use Rattle.dp_laws.specs.CertificateLaws.{ValidCertificatesHold, EndsAreInOrder, LowerEndIsTheValue};
ghost use Rattle.dp_laws.specs.CertificateLaws.{ClosedCertificatesAreOptimal, LowerEndOfVersionOne};
ghost use Rattle.dp_laws.specs.CertificateLaws.{ValidCertificatesFit};

/// The true value of a valid certificate's policy lies in its interval, and no joint policy is
/// worth more than its upper end, in both modes and with merges.
pub fn valid_certificates_hold()
    ensures { ValidCertificatesHold }
{}

/// The lower end of a valid certificate is at most its upper end.
#[tactic(auto, using(crate::proofs::ValidCertificates::ends_in_order))]
pub fn ends_are_in_order()
    ensures { EndsAreInOrder }
{}

/// In exact mode the lower end of a valid certificate is the value of what its rows mean.
#[tactic(auto, using(crate::proofs::ValidCertificates::lower_is_value))]
pub fn lower_end_is_the_value()
    ensures { LowerEndIsTheValue }
{}

/// In version 1 the lower end of a valid certificate is the forward worth of what its rows mean,
/// rounded down.
#[tactic(auto, using(crate::proofs::ValidCertificates::lower_of_one))]
pub fn lower_end_of_version_one()
    ensures { LowerEndOfVersionOne }
{}

/// In exact mode a valid and closed certificate has equal ends, and its policy is optimal.
pub fn closed_certificates_are_optimal()
    ensures { ClosedCertificatesAreOptimal }
{}

/// A valid certificate with a look in its range and at most a million inner nodes is all that is
/// asked of one before it is checked or written.
pub fn valid_certificates_fit()
    ensures { ValidCertificatesFit }
{}
