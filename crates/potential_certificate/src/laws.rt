//! Laws of the texts of certificates. Each function exists for its clause and does nothing.
ghost use Rattle.potential_certificate.specs.Faults.{BadCertificateLinesAreFirst, CutCertificatesLackTheirEnd};
ghost use Rattle.potential_certificate.specs.Laws.{CertificatesHaveOneText, CertificatesReadBack};

/// A certificate that has a text, written within the limit, reads back as the same certificate.
pub fn certificates_read_back()
    ensures { CertificatesReadBack }
{}

/// A certificate that was read has a text; it is exactly the text that was read, within the limit.
pub fn certificates_have_one_text()
    ensures { CertificatesHaveOneText }
{}

/// `BadLine` has the number of the first line that is not allowed at its place: the lines before it
/// begin the text of some certificate, and with it they do not.
pub fn bad_lines_are_first()
    ensures { BadCertificateLinesAreFirst }
{}

/// `Cut` says that each complete line is allowed and that the last line is missing.
pub fn cuts_lack_their_end()
    ensures { CutCertificatesLackTheirEnd }
{}
