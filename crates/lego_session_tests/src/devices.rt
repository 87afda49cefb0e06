//! Devices that fail: each read, each write, each room that is too small.

use lego_base::{MemSink, MemSource};
use lego_session::{Status, run};
use std::test::*;

const SCRIPT: &[u8] = b"[A:Prop][a:A];";

const ANSWERS: &[u8] = b"A : Prop\na : A\n";

const OUTPUT: &[u8] = b"A : Prop\na : A\nExplicit;\n[A:Prop];\n[a:A];\n";

#[test]
fn a_failed_read_is_reported_behind_the_answers(rt: HostRuntime) -> Result<(), Fail> {
    for number in 1..=16u32 {
        let mut script = MemSource::new(rt.alloc(), SCRIPT, 1, &[number])?;
        let mut out = MemSink::new(rt.alloc(), 1000, 1000, &[])?;
        let status = run(rt.alloc(), &[], &mut script, &mut out);
        let (wanted, taken) = match number {
            15 => (Status::ReadFault, ANSWERS),
            16 => (Status::Accepted, OUTPUT),
            _ => (Status::ReadFault, b"".as_slice()),
        };
        assert_eq!(rt; status, wanted, "read {number}");
        assert_eq!(rt; out.taken(), taken, "read {number}");
    }
    Ok(())
}

#[test]
fn a_failed_read_behind_a_command_leaves_its_answer(rt: HostRuntime) -> Result<(), Fail> {
    let mut script = MemSource::new(rt.alloc(), b"[A:Prop];[B:A];", 9, &[2])?;
    let mut out = MemSink::new(rt.alloc(), 1000, 1000, &[])?;
    let status = run(rt.alloc(), &[], &mut script, &mut out);
    assert_eq!(rt; status, Status::ReadFault);
    assert_eq!(rt; out.taken(), b"A : Prop\n".as_slice());
    Ok(())
}

#[test]
fn a_failed_write_leaves_a_front_of_the_output(rt: HostRuntime) -> Result<(), Fail> {
    for number in 1..=43u32 {
        let mut script = MemSource::new(rt.alloc(), SCRIPT, 9, &[])?;
        let mut out = MemSink::new(rt.alloc(), 1000, 1, &[number])?;
        let status = run(rt.alloc(), &[], &mut script, &mut out);
        let wanted = if number == 43 {
            Status::Accepted
        } else {
            Status::WriteFault
        };
        assert_eq!(rt; status, wanted, "write {number}");
        assert_eq!(rt;
            out.taken(),
            &OUTPUT[..number as usize - 1],
            "write {number}"
        );
    }
    Ok(())
}

#[test]
fn a_write_that_fails_behind_the_first_answer_leaves_that_answer(
    rt: HostRuntime,
) -> Result<(), Fail> {
    let mut script = MemSource::new(rt.alloc(), b"[A:Prop];[B:A];", 9, &[])?;
    let mut out = MemSink::new(rt.alloc(), 1000, 1000, &[2])?;
    let status = run(rt.alloc(), &[], &mut script, &mut out);
    assert_eq!(rt; status, Status::WriteFault);
    assert_eq!(rt; out.taken(), b"A : Prop\n".as_slice());
    Ok(())
}

#[test]
fn a_sink_out_of_room_has_a_front_of_the_output(rt: HostRuntime) -> Result<(), Fail> {
    for room in 0..=OUTPUT.len() {
        let mut script = MemSource::new(rt.alloc(), SCRIPT, 9, &[])?;
        let mut out = MemSink::new(rt.alloc(), room, 1000, &[])?;
        let status = run(rt.alloc(), &[], &mut script, &mut out);
        let wanted = if room == OUTPUT.len() {
            Status::Accepted
        } else {
            Status::WriteFault
        };
        assert_eq!(rt; status, wanted, "room of {room}");
        assert_eq!(rt; out.taken(), &OUTPUT[..room], "room of {room}");
    }
    Ok(())
}
