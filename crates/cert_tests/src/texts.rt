//! Texts of certificates, read whole and in blocks, and written.
ghost use Rattle.std.specs.Prelude.{◌<◌};

use cost_model::Params;
use plain_list::List;
use potential_certificate::{
    CertFault, Certificate, CertificateReader, read_certificate, write_certificate,
};
use std::alloc::{AllocError, Global};
use std::thread::Threads;

/// The certificate of trace 7 on two edges.
pub const WHOLE: &[u8] =
    b"fmm-certificate 1 k 8 radius 10000 sigma 1000 beta 1000 bound 300000\ntrace 7\nlayer 0 rank 0 cells 45 40545\nlayer 1 rank 0 cells 112<0 1568<0\npiece 0 1 cost 112 route 10\nend 7\nrow 1 1:0:- 2:10000:1\nrow 2 2:0:-\ncertified traces 1 rows 2\n";

/// A certificate for options.
#[derive(Clone, Copy)]
struct Case {
    shows: &'static str,
    params: Params,
    text: &'static [u8],
}

const RIGHT: [Case; 5] = [
    Case {
        shows: "a trace of two points",
        params: Params::DEFAULT,
        text: WHOLE,
    },
    Case {
        shows: "moves back",
        params: Params {
            back: 5,
            ..Params::DEFAULT
        },
        text: b"fmm-certificate 2 k 8 radius 10000 sigma 1000 beta 1000 bound 300000 back 5\ncertified traces 0 rows 0\n",
    },
    Case {
        shows: "a gap, and a point without candidates",
        params: Params {
            gap: 60,
            ..Params::DEFAULT
        },
        text: b"fmm-certificate 3 k 8 radius 10000 sigma 1000 beta 1000 bound 300000 back 0 gap 60\ntrace 1\nnone 0\nend 1\ncertified traces 1 rows 0\n",
    },
    Case {
        shows: "a route over two edges",
        params: Params {
            radius: 500,
            ..Params::DEFAULT
        },
        text: b"fmm-certificate 1 k 8 radius 500 sigma 1000 beta 1000 bound 300000\ntrace 1\nlayer 0 rank 0 cells 0 0\nlayer 1 rank 0 cells 0<0\npiece 0 1 cost 0 route 20 7\nend 1\nrow 1 1:0:- 2:10000:2\ncertified traces 1 rows 1\n",
    },
    Case {
        shows: "a dead cell, and a trace without points",
        params: Params::DEFAULT,
        text: b"fmm-certificate 1 k 8 radius 10000 sigma 1000 beta 1000 bound 300000\ntrace 1\nlayer 0 rank 0 cells 0 -\npiece 0 0 cost 0 route 3\nend 1\ntrace 1\nend 1\ncertified traces 2 rows 0\n",
    },
];

/// Texts that are right, cut, or wrong after some lines.
const TEXTS: [(&str, &[u8]); 7] = [
    ("a trace of two points", WHOLE),
    (
        "two traces",
        b"fmm-certificate 1 k 8 radius 10000 sigma 1000 beta 1000 bound 300000\ntrace 1\nend 1\ntrace 1\nnone 0\nend 1\ncertified traces 2 rows 0\n",
    ),
    (
        "rows out of order",
        b"fmm-certificate 1 k 8 radius 10000 sigma 1000 beta 1000 bound 300000\nrow 2 2:0:-\nrow 1 1:0:-\ncertified traces 0 rows 2\n",
    ),
    (
        "a trace after a row",
        b"fmm-certificate 1 k 8 radius 10000 sigma 1000 beta 1000 bound 300000\nrow 2 2:0:-\ntrace 1\nend 1\ncertified traces 1 rows 1\n",
    ),
    (
        "a point out of order",
        b"fmm-certificate 1 k 8 radius 10000 sigma 1000 beta 1000 bound 300000\ntrace 1\nnone 1\nend 1\nrow 2 2:0:-\ncertified traces 1 rows 1\n",
    ),
    (
        "a row after the end",
        b"fmm-certificate 1 k 8 radius 10000 sigma 1000 beta 1000 bound 300000\nrow 2 2:0:-\ncertified traces 0 rows 1\nrow 3",
    ),
    ("no first line", b"trace 1\nend 1\n"),
];

/// The text of a certificate that was read, or the fault.
fn written(
    alloc: Global,
    p: &Params,
    read: Result<Certificate, CertFault>,
) -> Result<List<u8>, CertFault> {
    let certificate = read?;
    let mut text = List::new(alloc);
    match write_certificate(alloc, p, &certificate, &mut text) {
        Ok(()) => Ok(text),
        Err(_) => Err(CertFault::Memory),
    }
}

fn is_written_again(alloc: Global, case: &Case) -> bool {
    let read = read_certificate(alloc, &case.params, case.text);
    match written(alloc, &case.params, read) {
        Ok(text) => text.as_slice() == case.text,
        Err(_) => false,
    }
}

#[test]
fn certificates_are_written_as_they_were(rt: HostRuntime) {
    for case in &RIGHT {
        assert!(rt; is_written_again(rt.alloc(), case), "{}", case.shows);
    }
}

/// The certificate of a text in blocks of this many bytes.
fn read_blocks(
    rt: &(impl Threads + Sync),
    alloc: Global,
    text: &[u8],
    size: usize,
) -> Result<Certificate, CertFault>
    requires { 0 < size }
{
    let mut reader = CertificateReader::new(alloc);
    for block in text.chunks(size) {
        reader = reader.push(rt, block)?;
    }
    reader.finish(&Params::DEFAULT)
}

fn are_same(a: &Result<List<u8>, CertFault>, b: &Result<List<u8>, CertFault>) -> bool {
    match (a, b) {
        (Ok(a), Ok(b)) => a.as_slice() == b.as_slice(),
        (Err(a), Err(b)) => a == b,
        _ => false,
    }
}

/// Whether blocks of every size give what the whole text gives.
fn is_same_in_blocks(rt: &(impl Threads + Sync), alloc: Global, text: &[u8]) -> bool {
    let p = &Params::DEFAULT;
    let whole = written(alloc, p, read_certificate(alloc, p, text));
    for size in 1..text.len() + 1 {
        let again = written(alloc, p, read_blocks(rt, alloc, text, size));
        if !are_same(&whole, &again) {
            return false;
        }
    }
    true
}

#[test]
fn blocks_of_every_size(rt: HostRuntime) {
    for (shows, text) in TEXTS {
        assert!(rt; is_same_in_blocks(&rt, rt.alloc(), text), "{shows}");
    }
}

fn is_cut(alloc: Global, text: &[u8]) -> bool {
    read_certificate(alloc, &Params::DEFAULT, text).err() == Some(CertFault::Cut)
}

#[test]
fn each_prefix_is_cut(rt: HostRuntime) {
    for length in 0..WHOLE.len() {
        assert!(rt; is_cut(rt.alloc(), &WHOLE[..length]), "{length} bytes");
    }
}
