//! The heater's certificate, worked out by hand.
ghost use Rattle.std.specs.Prelude.{◌≤◌, length};

use box_tree::{CertFault, read};
use cert_check::{CheckFault, TextFault, check, check_text, check_text16, check16};
use error_bound::LeafFault;
use fuzzy_meaning::heater;
use fz_num::Nano;
use std::alloc::Global;
use std::test::Fail;

const HEATER: &[u8] = b"FZC 1\nclaim 19609\nsplit 1 128\nleaf 1 127\nleaf 2 127\n";

/// The heater's error under a text of version 1, or why the text is refused.
fn answer(alloc: Global, text: &[u8]) -> Result<Result<Option<u32>, TextFault>, Fail>
    requires { length text.now ≤ 1048576 }
{
    let block = heater(alloc)?;
    match check_text(alloc, &block, text) {
        Ok(errors) => Ok(Ok(errors.as_slice().first().copied())),
        Err(refusal) => Ok(Err(refusal)),
    }
}

#[test]
fn an_accepted_certificate_tells_the_error(rt: HostRuntime) -> Result<(), Fail> {
    assert!(rt; answer(rt.alloc(), HEATER)? == Ok(Some(19609)));
    let more = b"FZC 1\nclaim 20000\nsplit 1 128\nleaf 1 127\nleaf 2 127\n";
    assert!(rt; answer(rt.alloc(), more)? == Ok(Some(19609)));
    Ok(())
}

#[test]
fn sixteen_bits_have_a_smaller_error(rt: HostRuntime) -> Result<(), Fail> {
    let block = heater(rt.alloc())?;
    let cert = read(rt.alloc(), HEATER)?;
    let errors = check16(rt.alloc(), &block, &cert)?;
    assert!(rt; errors.as_slice() == [15702].as_slice());
    Ok(())
}

#[test]
fn a_text_of_16_bits_tells_the_smaller_error(rt: HostRuntime) -> Result<(), Fail> {
    let block = heater(rt.alloc())?;
    let text = b"FZC 2\nclaim 15702\nsplit 1 128\nleaf 1 127\nleaf 2 127\n";
    let errors = check_text16(rt.alloc(), &block, text)?;
    assert!(rt; errors.as_slice() == [15702].as_slice());
    Ok(())
}

/// Texts whose certificates are refused, each with the certificate's first fault.
static REFUSED: [(&[u8], CheckFault); 8] = [
    (
        b"FZC 1\nclaim 19608\nsplit 1 128\nleaf 1 127\nleaf 2 127\n",
        CheckFault::Claimed(1, 19608, 19609),
    ),
    (
        b"FZC 1\nclaim 1 1\nleaf 0 0 0 0\n",
        CheckFault::Outputs(2, 1),
    ),
    (
        b"FZC 1\nclaim 1\nsplit 1 0\nleaf 1 127\nleaf 2 127\n",
        CheckFault::BadCut(3),
    ),
    (
        b"FZC 1\nclaim 1\nsplit 2 128\nleaf 1 127\nleaf 2 127\n",
        CheckFault::BadCut(3),
    ),
    (
        b"FZC 1\nclaim 1\nsplit 1 128\nleaf 3 127\nleaf 0 0\n",
        CheckFault::BadRule(4),
    ),
    (
        b"FZC 1\nclaim 19609\nsplit 1 128\nleaf 1 128\nleaf 2 127\n",
        CheckFault::Leaf(4, LeafFault::Weak(1, 128, Nano(500_000_000))),
    ),
    (
        b"FZC 1\nclaim 19609\nsplit 1 128\nleaf 2 127\nleaf 2 127\n",
        CheckFault::Leaf(4, LeafFault::Weak(2, 127, Nano(0))),
    ),
    (
        b"FZC 1\nclaim 19609\nsplit 1 128\nleaf 0 0\nleaf 2 127\n",
        CheckFault::Leaf(4, LeafFault::Silent(1, Nano(1_000_000_000))),
    ),
];

/// Why the certificate that a text spells is refused for the heater, checked as a tree.
fn refusal(alloc: Global, text: &[u8]) -> Result<Option<CheckFault>, Fail>
    requires { length text.now ≤ 1048576 }
{
    let cert = read(alloc, text)?;
    Ok(check(alloc, &heater(alloc)?, &cert).err())
}

#[test]
fn the_first_fault_of_a_certificate_is_told(rt: HostRuntime) -> Result<(), Fail> {
    for (text, fault) in REFUSED.iter() {
        assert!(rt; text.len() <= 1_048_576);
        assert!(rt; answer(rt.alloc(), text)? == Err(TextFault::Check(*fault)));
        assert!(rt; refusal(rt.alloc(), text)? == Some(*fault));
    }
    Ok(())
}

/// Texts with a fault, most of them after a node that has a fault on its box.
static FAULTY: [(&[u8], CertFault); 5] = [
    (b"FZC 1\nclaim 19609\nsplit 1 128\n", CertFault::Early),
    (
        b"FZC 1\nclaim 19609\nsplit 1 0\nleaf 1 127\n",
        CertFault::Early,
    ),
    (
        b"FZC 1\nclaim 19609\nsplit 1 128\nleaf 1 128\nleaf 2 127\nleaf 0 0\n",
        CertFault::Late(6),
    ),
    (
        b"FZC 1\nclaim 19609\nsplit 1 128\nleaf 1 128\nleaf 2 256\n",
        CertFault::BadLine(5),
    ),
    (
        b"FZC 1\nclaim 1 1\nsplit 1 128\nleaf 0 0\nleaf 0 0 0 0\n",
        CertFault::BadLine(4),
    ),
];

#[test]
fn a_fault_of_the_text_comes_first(rt: HostRuntime) -> Result<(), Fail> {
    for (text, fault) in FAULTY.iter() {
        assert!(rt; text.len() <= 1_048_576);
        assert!(rt; answer(rt.alloc(), text)? == Err(TextFault::Text(*fault)));
    }
    Ok(())
}
