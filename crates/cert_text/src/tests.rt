use crate::cert::CertLit;
use crate::fault::CertFault;
use crate::read::read_cert;
use crate::write::write_cert;
use std::alloc::Global;
use std::test::Fail;

/// Texts with their first bad line.
const BAD: [(&[u8], u64); 35] = [
    (b"", 1),
    (b"Whole\n", 1),
    (b"part", 1),
    (b"whole \n\n", 1),
    (b"\n", 1),
    (b"x1\n", 1),
    (b"part\r\n", 1),
    (b"whole\n", 2),
    (b"part\n\n", 2),
    (b"part\nx1\n\n", 3),
    (b"part\nx1\n\nx2\n", 3),
    (b"part\nx1", 2),
    (b"part\nx1\nx2", 3),
    (b"whole\nx1\n", 3),
    (b"whole\nx1\nx2\n", 4),
    (b"whole\n\n\n", 3),
    (b"whole\n\nx1\n", 3),
    (b"whole\n\nx1", 3),
    (b"whole\n1.2<1.3\n\n", 2),
    (b"part\nx1 1.2<2.2\n", 2),
    (b"part\nx2 x1\n", 2),
    (b"part\nx1 x1\n", 2),
    (b"part\n-x1 x1\n", 2),
    (b"part\n1.2<2.2 1.2<2.2\n", 2),
    (b"part\n0.10<1.2 0.7<1.2\n", 2),
    (b"part\nx1\nx0\nx2\n", 3),
    (b"part\nx01\n", 2),
    (b"part\nx9223372036854775809\n", 2),
    (b"part\n--x1\n", 2),
    (b"part\nx1  x2\n", 2),
    (b"part\nx1 \n", 2),
    (b"part\n x1\n", 2),
    (b"part\n256.0<1.0\n", 2),
    (b"part\n0.4294967296<1.0\n", 2),
    (b"part\n0.1<1\n", 2),
];

/// The line of the fault, or 0 for a certificate.
fn bad_line(alloc: Global, text: &[u8]) -> Result<u64, CertFault> {
    match read_cert(alloc, text) {
        Ok(_) => Ok(0),
        Err(CertFault::Bad { line }) => Ok(line),
        Err(CertFault::Memory) => Err(CertFault::Memory),
    }
}

#[test]
fn bad_certificates(rt: HostRuntime) -> Result<(), Fail> {
    for (text, line) in BAD {
        assert_eq!(rt; bad_line(rt.alloc(), text)?, line);
    }
    Ok(())
}

/// Texts of certificates, with their marks and numbers of lines.
const GOOD: [(&[u8], bool, usize); 6] = [
    (b"part\n", false, 0),
    (b"whole\n\n", true, 1),
    (b"part\n0.7<1.2\n", false, 1),
    (
        b"part\n0.0<255.4294967295 0.7<1.2 0.10<1.2 1.2<0.7 x1 -x1 -x9223372036854775808\n-x3\n",
        false,
        2,
    ),
    (b"part\nx1\nx1\n", false, 2),
    (
        b"whole\n0.7<1.2 0.10<1.2\n0.7<1.2 1.2<0.10\n0.7<1.2\n0.10<1.2 1.2<0.7\n1.2<0.7 1.2<0.10\n1.2<0.7\n\n",
        true,
        7,
    ),
];

#[test]
fn round_trip(rt: HostRuntime) -> Result<(), Fail> {
    for (text, whole, lines) in GOOD {
        let cert = read_cert(rt.alloc(), text)?;
        assert_eq!(rt; cert.whole, whole);
        assert_eq!(rt; cert.lines.len(), lines);
        let written = write_cert(rt.alloc(), &cert)?;
        assert_eq!(rt; written.as_slice(), text);
    }
    Ok(())
}

#[test]
fn literals(rt: HostRuntime) -> Result<(), Fail> {
    let cert = read_cert(rt.alloc(), b"part\n3.7<1.2 x5\n-x4\n")?;
    let [first, second] = cert.lines.as_slice() else {
        return Err("two lines".into());
    };
    let before = CertLit::Before {
        first_thread: 3,
        first_step: 7,
        second_thread: 1,
        second_step: 2,
    };
    let variable = CertLit::Var {
        number: 5,
        positive: true,
    };
    let opposite = CertLit::Var {
        number: 4,
        positive: false,
    };
    assert_eq!(rt; first.as_slice(), [before, variable].as_slice());
    assert_eq!(rt; second.as_slice(), [opposite].as_slice());
    Ok(())
}
