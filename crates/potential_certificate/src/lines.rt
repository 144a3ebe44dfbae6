//! The first and the last line of a certificate. Serves the writer and the reader; decided by
//! `certificate_first_line` and `last_line`.
ghost use Rattle.std.specs.Prelude.{◌≡◌, ◌++◌, length, take, OnErr, OnOk};
ghost use Rattle.potential_certificate.specs.CertificateText.{back_words, certificate_first_line, form, gap_words, last_line, certificate_option_words};
ghost use Rattle.potential_certificate.specs.inside.Words.{words_text};

use cost_model::Params;
use decimal_text::write_worded;
use plain_list::List;
use std::alloc::AllocError;

/// Appends the first line. On `Err`, a part of it may remain at the end.
pub fn append_first(p: &Params, into: &mut List<u8>) -> Result<(), AllocError>
    ensures ok { OnOk result (into.new ≡ into.old ++ certificate_first_line p.now) }
    ensures err { OnErr result (take (length into.old) into.new ≡ into.old) }
{
    into.extend_from_slice(b"fmm-certificate")?;
    write_worded(b" ", u64::from(form(p)), into)?;
    append_options(p, into)?;
    append_back(p, into)?;
    append_gap(p, into)?;
    into.extend_from_slice(b"\n")
}

// The form of the first line, 1 to 3.
fn form(p: &Params) -> u32
    ensures { result ≡ form p.now }
{
    if p.gap != u32::MAX {
        3
    } else if p.back != 0 {
        2
    } else {
        1
    }
}

// Appends the options that every form has. On `Err`, some of them may remain at the end.
fn append_options(p: &Params, into: &mut List<u8>) -> Result<(), AllocError>
    ensures ok { OnOk result (into.new ≡ into.old ++ words_text (certificate_option_words p.now)) }
    ensures err { OnErr result (take (length into.old) into.new ≡ into.old) }
{
    write_worded(b" k ", u64::from(p.k), into)?;
    write_worded(b" radius ", u64::from(p.radius), into)?;
    write_worded(b" sigma ", u64::from(p.sigma), into)?;
    write_worded(b" beta ", u64::from(p.beta), into)?;
    write_worded(b" bound ", u64::from(p.bound), into)
}

// Appends the option `back`, or nothing.
fn append_back(p: &Params, into: &mut List<u8>) -> Result<(), AllocError>
    ensures ok { OnOk result (into.new ≡ into.old ++ words_text (back_words p.now)) }
    ensures err { OnErr result (into.new ≡ into.old) }
{
    if form(p) == 1 {
        return Ok(());
    }
    write_worded(b" back ", u64::from(p.back), into)
}

// Appends the option `gap`, or nothing.
fn append_gap(p: &Params, into: &mut List<u8>) -> Result<(), AllocError>
    ensures ok { OnOk result (into.new ≡ into.old ++ words_text (gap_words p.now)) }
    ensures err { OnErr result (into.new ≡ into.old) }
{
    if form(p) == 3 {
        return write_worded(b" gap ", u64::from(p.gap), into);
    }
    Ok(())
}

/// Appends the last line. On `Err`, a part of it may remain at the end.
pub fn append_last(traces: u64, rows: u64, into: &mut List<u8>) -> Result<(), AllocError>
    ensures ok { OnOk result (into.new ≡ into.old ++ last_line traces rows) }
    ensures err { OnErr result (take (length into.old) into.new ≡ into.old) }
{
    write_worded(b"certified traces ", traces, into)?;
    write_worded(b" rows ", rows, into)?;
    into.extend_from_slice(b"\n")
}
