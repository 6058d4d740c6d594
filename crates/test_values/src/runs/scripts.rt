//! Scripts, and their first lines that are no order.
use debug_script::{Order, ScriptFault, read_script};
use std::alloc::Global;
use std::test::Fail;

/// The first fault of a text.
fn fault_of(alloc: Global, text: &[u8]) -> Option<ScriptFault> {
    if text.len() > 1_048_576 {
        return None;
    }
    read_script(alloc, text).err()
}

#[test]
fn a_script_is_read(rt: HostRuntime) -> Result<(), Fail> {
    let text =
        b"break c031\nunbreak C031\nwatch 1010\nunwatch FFFF\nstep 000000001\ngo\nregs\nmem FFFF 016\n";
    let script = read_script(rt.alloc(), text)?;
    let orders = [
        Order::Break(0xC031),
        Order::Unbreak(0xC031),
        Order::Watch(0x1010),
        Order::Unwatch(0xFFFF),
        Order::Step(1),
        Order::Go,
        Order::Registers,
        Order::Memory(0xFFFF, 16),
    ];
    assert!(rt; script.as_slice() == orders.as_slice());
    Ok(())
}

const FAULTS: [(&[u8], u32); 19] = [
    (b"go\r\n", 1),
    (b"go\n\nregs\n", 2),
    (b"go\nregs", 2),
    (b"Go\n", 1),
    (b"go \n", 1),
    (b" go\n", 1),
    (b"break  C031\n", 1),
    (b"break C03\n", 1),
    (b"break C0310\n", 1),
    (b"break C03G\n", 1),
    (b"go\ngo\nwatch\n", 3),
    (b"step 0\n", 1),
    (b"step 1000001\n", 1),
    (b"step 0000000001\n", 1),
    (b"step -1\n", 1),
    (b"mem 1010 0\n", 1),
    (b"mem 1010 17\n", 1),
    (b"mem 1010  1\n", 1),
    (b"mem 1010\n", 1),
];

#[test]
fn faults(rt: HostRuntime) {
    for (text, line) in FAULTS {
        assert!(rt;
            fault_of(rt.alloc(), text) == Some(ScriptFault::Line(line)),
            "{text:?}"
        );
    }
}

#[test]
fn an_empty_text_is_an_empty_script(rt: HostRuntime) -> Result<(), Fail> {
    assert!(rt; read_script(rt.alloc(), b"")?.len() == 0);
    Ok(())
}
