//! Reads a certificate whose text comes in blocks. Serves readers of files; decided by `certificate_of_text`. A block is
//! cut into parts before lines that may begin a proof or a row, which several threads read. Speed only: any cut is
//! right.
ghost use Rattle.std.specs.Prelude.{◌≡◌, ◌⊎◌, ◌++◌, ℕ, [], IfErr, IfOk, IsErrOf, Ok, Err};
ghost use Rattle.row_text.specs.LineFaults.{IsCutOf, IsFirstBadLineOf};
ghost use Rattle.potential_certificate.specs.Faults.{IsCertificate};
ghost use Rattle.potential_certificate.specs.Reading.{certificate_of_text};
ghost use Rattle.potential_certificate.specs.declared.fault.CertFault.TheVariants.{Memory};

use crate::TEXT_LIMIT;
use crate::fault::{CertFault, WriteFault};
use crate::gathered::Gathered;
use crate::proof::Certificate;
use crate::reading::{known_options, read_certificate};
use cost_model::Params;
use std::alloc::{AllocError, Global};
use std::marker::Model;
use std::thread::Threads;

/// The text of a certificate that comes in blocks of any size.
///
/// Proofs and rows are stored as read and their text is dropped, since each has exactly one text. If the
/// text is not that of a certificate, it is written out again and read from its start.
#[derive(Drop)]
pub struct CertificateReader {
    gathered: Gathered,
    count: u64,
}

impl Model for CertificateReader {
    ghost use Rattle.std.specs.Prelude.{ℕ, List};

    ghost Value = { List ℕ };

    ghost use Rattle.potential_certificate.specs.inside.ReaderInside.{CountsBytes, text_so_far};

    ghost view = { text_so_far };

    ghost invariant = { CountsBytes };
}

impl CertificateReader {
    /// An empty text.
    pub fn new(alloc: Global) -> CertificateReader
        ensures { result ≡ [] }
    {
        CertificateReader {
            gathered: Gathered::new(alloc),
            count: 0,
        }
    }

    /// Takes more of the text. Up to 64 threads read the proofs and rows in it.
    pub fn push<R: Threads + Sync>(
        self,
        rt: &R,
        block: &[u8],
    ) -> Result<CertificateReader, AllocError>
        ensures { IfOk result (λ reader. reader ≡ self ++ block.now) }
    {
        let CertificateReader {
            mut gathered,
            count,
        } = self;
        gathered.push(rt, block)?;
        Ok(CertificateReader {
            gathered,
            count: count.saturating_add(block.len() as u64),
        })
    }

    /// The certificate whose text for these options was taken, as [`read_certificate`] returns it.
    pub fn finish(self, p: &Params) -> Result<Certificate, CertFault>
        ensures ok { IfOk result (λ c. certificate_of_text p.now self ≡ Ok c) }
        ensures err { IfErr result (λ fault. (fault ≡ Memory)
            ⊎ (certificate_of_text p.now self ≡ Err fault)) }
        // Which line is bad, and what a text that is cut lacks.
        ensures bad_line { (n : ℕ) → IsErrOf result (CertFault.BadLine n)
            → IsFirstBadLineOf (IsCertificate p.now) n self }
        ensures cut { IsErrOf result CertFault.Cut → IsCutOf (IsCertificate p.now) self }
    {
        known_options(*p);
        self.close(p)
    }

    /// The certificate of the text that was taken, or its fault.
    fn close(self, p: &Params) -> Result<Certificate, CertFault>
        ensures ok { IfOk result (λ c. certificate_of_text p.now self ≡ Ok c) }
        ensures err { IfErr result (λ fault. (fault ≡ Memory)
            ⊎ (certificate_of_text p.now self ≡ Err fault)) }
    {
        let CertificateReader {
            mut gathered,
            count,
        } = self;
        let alloc = gathered.alloc;
        gathered.settle()?;
        if count <= TEXT_LIMIT && gathered.is_closed(p)? {
            return Ok(gathered.into_certificate());
        }
        match gathered.into_text() {
            Ok(text) => read_certificate(alloc, p, text.as_slice()),
            Err(WriteFault::TooLong) => Err(CertFault::TooLong),
            Err(WriteFault::Memory) => Err(CertFault::Memory),
        }
    }
}
