//! The heater's tight certificates.
use box_tree::{CertFormat, write_for};
use cert_check::{CheckFault, TextFault, check_text_for};
use error_certifier::{NotReached, certify_for};
use fuzzy_meaning::heater;
use std::test::Fail;

/// Targets, and the texts of the certificates that halving gives for them.
static HALVED: [(u32, &[u8]); 3] = [
    (20_000, b"FZC 3\nclaim 11735\nsplit 1 128\nleaf\nleaf\n"),
    (
        11_734,
        b"FZC 3\nclaim 9130\nsplit 1 128\nsplit 1 64\nleaf\nleaf\nleaf\n",
    ),
    (
        3_907,
        b"FZC 3\nclaim 3907\nsplit 1 128\nsplit 1 64\ncells\ncells\nsplit 1 192\ncells\ncells\n",
    ),
];

#[test]
fn a_heater_is_halved_to_tight_leaves(rt: HostRuntime) -> Result<(), Fail> {
    let alloc = rt.alloc();
    let block = heater(alloc)?;
    for (target, text) in HALVED.iter() {
        assert!(rt; *target <= 1_000_000);
        let cert = certify_for(alloc, CertFormat::TIGHT, &block, *target)?;
        assert!(rt; write_for(alloc, CertFormat::TIGHT, &cert)?.as_slice() == *text);
    }
    let cert = certify_for(alloc, CertFormat::TIGHT16, &block, 20_000)?;
    let text = b"FZC 4\nclaim 7828\nsplit 1 128\nleaf\nleaf\n";
    assert!(rt; write_for(alloc, CertFormat::TIGHT16, &cert)?.as_slice() == text.as_slice());
    let errors = check_text_for(alloc, CertFormat::TIGHT16, &block, text)?;
    assert!(rt; errors.as_slice() == [7828].as_slice());
    Ok(())
}

#[test]
fn a_cell_is_out_of_reach_for_all(rt: HostRuntime) -> Result<(), Fail> {
    let block = heater(rt.alloc())?;
    match certify_for(rt.alloc(), CertFormat::TIGHT, &block, 3_906) {
        Err(NotReached::Cell(bytes, output, bound)) => {
            assert!(rt; bytes.as_slice() == [0].as_slice());
            assert!(rt; output == 1 && bound == 3_907);
            Ok(())
        }
        _ => Err(Fail::new("no cell")),
    }
}

/// Texts whose certificates are refused, each with the certificate's first fault.
static REFUSED: [(&[u8], CheckFault); 3] = [
    (
        b"FZC 3\nclaim 11734\nsplit 1 128\nleaf\nleaf\n",
        CheckFault::Claimed(1, 11734, 11735),
    ),
    (b"FZC 3\nclaim 11735\nleaf\n", CheckFault::Unsure(3, 1)),
    (b"FZC 3\nclaim 11735\ncells\n", CheckFault::TooManyCells(3)),
];

#[test]
fn tight_certificates_are_refused(rt: HostRuntime) -> Result<(), Fail> {
    let block = heater(rt.alloc())?;
    for (text, fault) in REFUSED.iter() {
        assert!(rt; text.len() <= 1_048_576);
        let refused = check_text_for(rt.alloc(), CertFormat::TIGHT, &block, text).err();
        assert!(rt; refused == Some(TextFault::Check(*fault)));
    }
    Ok(())
}
