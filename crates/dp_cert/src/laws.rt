//! Laws of certificate texts.
ghost use Rattle.dp_cert.specs.CertificateLaws.{EachCertificateTextHasOneAnswer, EachCertificateTextIsRead};

/// For a model, every bytes have exactly one answer: they are the text of one certificate, or have one first
/// line that is not as required, or pass one limit before such a line.
pub fn certificate_texts_have_one_answer()
    ensures { EachCertificateTextHasOneAnswer }
{}

/// For a model, the text of each certificate of it says this certificate, where the horizon passes no limit
/// of the certificate's version, and the tree has at most 2,048 branches and merges on a path.
pub fn certificate_texts_say_their_certificates()
    ensures { EachCertificateTextIsRead }
{}
