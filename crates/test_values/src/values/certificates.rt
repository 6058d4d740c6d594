//! Texts of all versions: the number of nodes of their certificates, which are written as they were
//! read, or their first faults.
ghost use Rattle.std.specs.Prelude.{◌≤◌, length};

use box_tree::CertFault::{BadLine, Early, Late};
use box_tree::{CertFault, CertFormat, Lines, read, read_for, read16, write, write_for, write16};
use std::alloc::{AllocError, Global};
use std::test::Fail;

/// The number of nodes of a text's certificate, or the text's first fault.
type Told = Result<usize, CertFault>;

const HEATER: &[u8] = b"FZC 1\nclaim 19609\nsplit 1 128\nleaf 1 127\nleaf 2 127\n";

/// A version, a text, and its nodes or fault.
static ROWS: [(u8, &[u8], Told); 25] = [
    (1, HEATER, Ok(3)),
    (2, HEATER, Err(BadLine(1))),
    (2, b"FZC 2\nclaim 0 7\nleaf 0 0 256 255\n", Ok(1)),
    (1, b"", Err(Early)),
    (1, b"FZC 1\n", Err(Early)),
    (1, b"FZC 1\nclaim 1\n", Err(Early)),
    (1, b"FZC 1\nclaim 1\nsplit 1 1\nleaf 0 0\n", Err(Early)),
    (1, b"FZC 1", Err(BadLine(1))),
    (1, b"FZC 2\nclaim 1\nleaf 0 0\n", Err(BadLine(1))),
    (1, b"FZC 01\n", Err(BadLine(1))),
    (1, b"FZC 1\nclaim\n", Err(BadLine(2))),
    (1, b"FZC 1\nclaim 1000001\n", Err(BadLine(2))),
    (1, b"FZC 1\nclaim 1 1 1 1 1\n", Err(BadLine(2))),
    (1, b"FZC 1\nclaim 1\nleaf 0 1\n", Err(BadLine(3))),
    (1, b"FZC 1\nclaim 1\nleaf 257 1\n", Err(BadLine(3))),
    (1, b"FZC 1\nclaim 1\nleaf 1 1 1 1\n", Err(BadLine(3))),
    (1, b"FZC 1\nclaim 1\nleaf  1 1\n", Err(BadLine(3))),
    (1, b"FZC 1\nclaim 1\nsplit 9 1\n", Err(BadLine(3))),
    (1, b"FZC 1\nclaim 1\nsplit 1 256\n", Err(BadLine(3))),
    (1, b"FZC 1\nclaim 1\nleaf 1 1\r\n", Err(BadLine(3))),
    (1, b"FZC 1\nclaim 1\nleaf 1 1\nleaf 0 0\n", Err(Late(4))),
    (1, b"FZC 1\nclaim 1\nleaf 1 1\nleaf\n", Err(BadLine(4))),
    (1, b"FZC 1\nclaim 1\nleaf 1 1\nleaf 0 0", Err(BadLine(4))),
    (1, b"FZC 1\nclaim 1\nsplit 1 1\nleaf 1 1", Err(BadLine(4))),
    (2, b"FZC 2\nclaim 1\nleaf 0 0\nleaf 0 0\n", Err(Late(4))),
];

/// The same for tight certificates.
static TIGHT_ROWS: [(u8, &[u8], Told); 14] = [
    (
        3,
        b"FZC 3\nclaim 11724\nsplit 1 128\nsplit 1 64\ncells\nleaf\nsplit 1 192\nleaf\ncells\n",
        Ok(7),
    ),
    (4, b"FZC 4\nclaim 0 7\ncells\n", Ok(1)),
    (1, b"FZC 3\nclaim 1\nleaf\n", Err(BadLine(1))),
    (3, HEATER, Err(BadLine(1))),
    (3, b"FZC 4\nclaim 1\nleaf\n", Err(BadLine(1))),
    (4, b"FZC 3\nclaim 1\nleaf\n", Err(BadLine(1))),
    (1, b"FZC 1\nclaim 1\nleaf\n", Err(BadLine(3))),
    (2, b"FZC 2\nclaim 1\ncells\n", Err(BadLine(3))),
    (3, b"FZC 3\nclaim 1\nleaf 0 0\n", Err(BadLine(3))),
    (3, b"FZC 3\nclaim 1\ncells 1\n", Err(BadLine(3))),
    (3, b"FZC 3\nclaim 1\nleaf \n", Err(BadLine(3))),
    (4, b"FZC 4\nclaim 1\ncell\n", Err(BadLine(3))),
    (3, b"FZC 3\nclaim 1\nleaf\ncells\n", Err(Late(4))),
    (4, b"FZC 4\nclaim 1\nsplit 1 1\ncells\n", Err(Early)),
];

/// The number of nodes of the certificate that a text of this version spells, and the text that is
/// written of it, or the first fault.
fn written_again(
    alloc: Global,
    version: u8,
    text: &[u8],
) -> Result<Result<(usize, Vec<u8>), CertFault>, AllocError>
    requires { length text.now ≤ 1048576 }
{
    match version {
        1 => match read(alloc, text) {
            Ok(cert) => Ok(Ok((cert.nodes.len(), write(alloc, &cert)?))),
            Err(fault) => Ok(Err(fault)),
        },
        2 => match read16(alloc, text) {
            Ok(cert) => Ok(Ok((cert.nodes.len(), write16(alloc, &cert)?))),
            Err(fault) => Ok(Err(fault)),
        },
        3 => match read_for(alloc, CertFormat::TIGHT, text) {
            Ok(cert) => Ok(Ok((
                cert.nodes.len(),
                write_for(alloc, CertFormat::TIGHT, &cert)?,
            ))),
            Err(fault) => Ok(Err(fault)),
        },
        _ => match read_for(alloc, CertFormat::TIGHT16, text) {
            Ok(cert) => Ok(Ok((
                cert.nodes.len(),
                write_for(alloc, CertFormat::TIGHT16, &cert)?,
            ))),
            Err(fault) => Ok(Err(fault)),
        },
    }
}

/// The nodes or the fault of a text of this version, if what was read is written as the same text.
fn read_again(alloc: Global, version: u8, text: &[u8]) -> Result<Told, Fail> {
    if text.len() > 1_048_576 {
        return Ok(Err(CertFault::Memory));
    }
    match written_again(alloc, version, text)? {
        Ok((nodes, again)) => Ok(told(nodes, again.as_slice() == text)),
        Err(fault) => Ok(Err(fault)),
    }
}

/// The number of nodes, if the text was written the same; else a fault.
fn told(nodes: usize, same: bool) -> Told {
    if same {
        Ok(nodes)
    } else {
        Err(CertFault::Early)
    }
}

/// The reader of a text of this version.
fn begun(version: u8, text: &[u8]) -> Result<Lines<'_>, CertFault>
    requires { length text.now ≤ 1048576 }
{
    match version {
        1 => Lines::new(text),
        2 => Lines::new16(text),
        3 => Lines::of(CertFormat::TIGHT, text),
        _ => Lines::of(CertFormat::TIGHT16, text),
    }
}

/// The nodes or the fault that a reader finds after the claims, if a further call repeats its last result.
fn walk_twice(begun: Result<Lines<'_>, CertFault>) -> Option<Told> {
    let mut lines = match begun {
        Ok(lines) => lines,
        Err(fault) => return Some(Err(fault)),
    };
    for count in 0..10_000 {
        match lines.next() {
            Ok(Some(_)) => {}
            Ok(None) => return matches!(lines.next(), Ok(None)).then_some(Ok(count)),
            Err(fault) => return (lines.next().err() == Some(fault)).then_some(Err(fault)),
        }
    }
    None
}

/// Whether the nodes or the fault of a row's text are those of the row, both as a whole and node by node.
fn is_told(alloc: Global, row: &(u8, &[u8], Told)) -> Result<bool, Fail> {
    let (version, text, want) = *row;
    if text.len() > 1_048_576 {
        return Ok(false);
    }
    let whole = read_again(alloc, version, text)?;
    Ok(whole == want && walk_twice(begun(version, text)) == Some(want))
}

#[test]
fn a_text_has_a_certificate_or_a_first_fault(rt: HostRuntime) -> Result<(), Fail> {
    for row in ROWS.iter() {
        let text = row.1;
        assert!(rt; is_told(rt.alloc(), row)?, "{text:?}");
    }
    Ok(())
}

#[test]
fn a_text_has_a_tight_certificate_or_a_first_fault(rt: HostRuntime) -> Result<(), Fail> {
    for row in TIGHT_ROWS.iter() {
        let text = row.1;
        assert!(rt; is_told(rt.alloc(), row)?, "{text:?}");
    }
    Ok(())
}

/// A header, this many splits, each with a leaf on its left, and the last leaf.
fn comb(
    alloc: Global,
    header: &[u8],
    leaf: &[u8],
    last: &[u8],
    splits: usize,
) -> Result<Vec<u8>, AllocError> {
    let mut text = Vec::from_slice(alloc, header)?;
    for _ in 0..splits {
        text.extend_from_slice(b"split 1 1\n")?;
        text.extend_from_slice(leaf)?;
    }
    text.extend_from_slice(last)?;
    Ok(text)
}

#[test]
fn a_tree_has_4096_leaves_at_most(rt: HostRuntime) -> Result<(), Fail> {
    for (splits, want) in [
        (4095, Ok(8191)),
        (4096, Err(CertFault::TooManyLeaves(8195))),
    ] {
        let (alloc, leaf) = (rt.alloc(), b"leaf 0 0\n");
        let named = comb(alloc, b"FZC 1\nclaim 0\n", leaf, leaf, splits)?;
        assert!(rt; read_again(alloc, 1, &named)? == want);
        let tight = comb(alloc, b"FZC 3\nclaim 0\n", b"leaf\n", b"cells\n", splits)?;
        assert!(rt; read_again(alloc, 3, &tight)? == want);
    }
    Ok(())
}
