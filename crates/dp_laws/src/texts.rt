//! One spelling: policies and certificates belong to their texts one to one.

ghost use Rattle.dp_laws.specs.OneSpelling.{OnePolicyPerText, OneTextPerPolicy, EachPolicyHasText};
ghost use Rattle.dp_laws.specs.OneSpelling.{OneCertificatePerText, OneTextPerCertificate};
ghost use Rattle.dp_laws.specs.OneSpelling.{EachCertificateHasText};

/// For a model, no two joint policies have the same text, and each has one.
pub fn policies_have_one_text()
    ensures one_policy { OnePolicyPerText }
    ensures one_text { OneTextPerPolicy }
    ensures some_text { EachPolicyHasText }
{}

/// For a model, no two certificates have the same text, and each whose numbers its lines allow
/// has one.
pub fn certificates_have_one_text()
    ensures one_certificate { OneCertificatePerText }
    ensures one_text { OneTextPerCertificate }
    ensures some_text { EachCertificateHasText }
{}
