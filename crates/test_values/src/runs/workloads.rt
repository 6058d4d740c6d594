//! The workload of a number, against draws that were worked out separately.
use box_tree::CertFormat;
use cpu12_isa::instr::Write;
use error_certifier::{NotReached, certify_for};
use fz_num::Dec;
use std::process::Abort;
use std::test::Fail;
use trace_io::Sample;
use workload::generate;

/// Fails if a sample has other numbers, in 1/10000, or other bytes.
fn is_sample(rt: &impl Abort, sample: Option<&Sample>, numbers: [i64; 2], bytes: [u8; 2]) {
    let Some(sample) = sample else {
        panic!(rt; "no sample");
    };
    let [x, y] = numbers;
    assert!(rt; sample.values.as_slice() == [Dec(x), Dec(y)].as_slice());
    assert!(rt; sample.bytes.as_slice() == bytes.as_slice());
}

// The first draw modulo 5 is 3.
#[test]
fn a_number_draws_a_workload(rt: HostRuntime) -> Result<(), Fail> {
    let workload = generate(rt.alloc(), 7)?;
    let rules = workload.block.rules.as_slice();
    assert!(rt; (workload.block.inputs.len(), rules.len()) == (2, 81));
    assert!(rt; rules[0].concl.as_slice() == [(1, 4)].as_slice());
    assert!(rt; rules[80].concl.as_slice() == [(1, 3)].as_slice());
    let samples = &workload.samples;
    assert!(rt; samples.len() == 1000);
    is_sample(&rt, samples.first(), [1_702_430, 1_255_993], [170, 125]);
    is_sample(&rt, samples.last(), [1_657_032, 635_978], [165, 63]);
    assert!(rt; workload.trace.starts_with(b"170.2430,125.5993\n"));
    let requests = workload.requests.as_slice();
    assert!(rt; requests.len() == 1000);
    let first = Write {
        at: 0x1CF1,
        value: 0xE6,
    };
    assert!(rt; (requests[0].sample, requests[0].moment) == (1, 351));
    assert!(rt; requests[0].writes.as_slice() == [first].as_slice());
    let last = Write {
        at: 0x186F,
        value: 0xAE,
    };
    assert!(rt; (requests[999].sample, requests[999].moment) == (1000, 361));
    assert!(rt; requests[999].writes.as_slice() == [last].as_slice());
    Ok(())
}

/// Targets, with the error and the number of leaves of the tight certificates that are found for them.
static HALVED: [(u32, u32, usize); 3] = [
    (400_000, 142_586, 256),
    (140_000, 139_442, 300),
    (66_177, 66_177, 850),
];

#[test]
fn a_workload_is_halved_to_cells(rt: HostRuntime) -> Result<(), Fail> {
    let alloc = rt.alloc();
    let block = generate(alloc, 7)?.block;
    for (target, error, leaves) in HALVED.iter() {
        assert!(rt; *target <= 1_000_000);
        let cert = certify_for(alloc, CertFormat::TIGHT, &block, *target)?;
        assert!(rt; cert.claims.as_slice() == [*error].as_slice());
        assert!(rt; cert.nodes.len() == 2 * *leaves - 1);
    }
    match certify_for(alloc, CertFormat::TIGHT, &block, 66_176) {
        Err(NotReached::Cell(bytes, output, bound)) => {
            assert!(rt; bytes.as_slice() == [32, 0].as_slice());
            assert!(rt; output == 1 && bound == 66_177);
            Ok(())
        }
        _ => Err(Fail::new("no cell")),
    }
}
