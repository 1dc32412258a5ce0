//! Desks: what is opened, read and written, the calls that fail, and the names of errors.
ghost use Rattle.std.specs.Prelude.{◌≡◌, ◌<◌, IfOk, OnOk};
ghost use Rattle.crs_desk.specs.Calm.{calm_inputs};
ghost use Rattle.crs_desk.specs.Memory.{memory_inputs};

use crs_desk::{
    CalmDesk, Desk, DeskError, MemoryDesk, ReadAllError, RealDesk, read_all, write_all,
};
use std::alloc::{AllocError, Global};
use std::process::Abort;
use std::test::Fail;

fn desk_of(alloc: Global) -> Result<MemoryDesk, AllocError>
    ensures { IfOk result (λ d. memory_inputs d ≡ 0) }
{
    let mut desk = MemoryDesk::new(alloc);
    desk.add_file("a", b"one two")?;
    desk.add_file("a", b"three")?;
    desk.add_file("b", b"")?;
    Ok(desk)
}

/// Opens the first two inputs of a desk.
fn open_two<D: Desk>(rt: &impl Abort, desk: &mut D, second: &str) -> Result<(), Fail>
    requires { D.inputs desk.old ≡ 0 }
    ensures { OnOk result (D.inputs desk.new ≡ 2) }
{
    let numbers = (desk.open("a")?, desk.open(second)?);
    assert_eq!(rt; numbers, (0, 1));
    Ok(())
}

/// Reads the front of `one two`, and then the rest.
fn read_first<D: Desk>(
    rt: &impl Abort,
    alloc: Global,
    desk: &mut D,
    front: &str,
) -> Result<(), Fail>
    requires { D.inputs desk.old ≡ 2 }
    ensures { D.inputs desk.new ≡ 2 }
{
    let mut buf = [0; 4];
    let count = desk.read(0, &mut buf)?;
    assert!(rt; &buf[..count] == front.as_bytes(), "a piece like {front}");
    let rest = read_all(alloc, desk, 0, 7)?;
    assert_eq!(rt; count + rest.len(), 7);
    assert!(rt; b"one two".ends_with(rest.as_slice()));
    Ok(())
}

/// Writes a front of four bytes, and then five.
fn write_twice<D: Desk>(rt: &impl Abort, desk: &mut D, front: &str) -> Result<(), Fail> {
    assert_eq!(rt; desk.write(b"wxyz")?, front.len());
    write_all(desk, b"!wxyz")?;
    Ok(())
}

/// Reads and writes in pieces, where the second input is empty.
fn move_in_pieces<D: Desk>(
    rt: &impl Abort,
    alloc: Global,
    desk: &mut D,
    front: &str,
) -> Result<(), Fail>
    requires { D.inputs desk.old ≡ 0 }
{
    open_two(rt, desk, "b")?;
    read_first(rt, alloc, desk, front)?;
    assert_eq!(rt; desk.read(1, &mut [0; 4])?, 0);
    write_twice(rt, desk, front)
}

#[test]
fn bytes_move_in_pieces(rt: HostRuntime) -> Result<(), Fail> {
    let alloc = rt.alloc();
    for (piece, front) in [(1, "o"), (3, "one"), (4, "one "), (7, "one ")] {
        let mut desk = desk_of(alloc)?;
        desk.set_piece(piece);
        move_in_pieces(&rt, alloc, &mut desk, front)?;
        assert!(rt; desk.written().starts_with(b"w"));
        assert!(rt; desk.written().ends_with(b"!wxyz"));
        assert_eq!(rt; desk.written().len(), front.len() + 5);
    }
    Ok(())
}

fn opens_fail(rt: &impl Abort, desk: &mut MemoryDesk) -> Result<(), Fail>
    requires { memory_inputs desk.old ≡ 0 }
    ensures { OnOk result (memory_inputs desk.new ≡ 2) }
{
    assert_eq!(rt; desk.open("c"), Err(DeskError::Failed));
    assert_eq!(rt; desk.open("a"), Err(DeskError::Failed));
    open_two(rt, desk, "a")
}

fn reads_fail<D: Desk>(rt: &impl Abort, desk: &mut D)
    requires { D.inputs desk.old ≡ 2 }
{
    let mut buf = [0; 2];
    assert_eq!(rt; desk.read(0, &mut buf), Ok(2));
    assert_eq!(rt; desk.read(1, &mut buf), Ok(2));
    assert_eq!(rt; desk.read(1, &mut buf), Err(DeskError::Failed));
    assert_eq!(rt; desk.read(0, &mut buf), Err(DeskError::Failed));
    assert_eq!(rt; desk.read(0, &mut buf), Ok(2));
    assert!(rt; buf.as_slice() == b"e ".as_slice());
}

fn writes_fail<D: Desk>(rt: &impl Abort, desk: &mut D) {
    assert_eq!(rt; desk.write(b"x"), Ok(1));
    assert_eq!(rt; desk.write(b"y"), Err(DeskError::Failed));
    assert_eq!(rt; desk.write(b"z"), Ok(1));
}

/// A desk at which the second open of a name, read of an input and write fail.
fn failing_desk(alloc: Global) -> Result<MemoryDesk, AllocError>
    ensures { IfOk result (λ d. memory_inputs d ≡ 0) }
{
    let mut desk = desk_of(alloc)?;
    desk.fail_open(2)?;
    desk.fail_read("a", 2)?;
    desk.fail_write(2)?;
    Ok(desk)
}

#[test]
fn calls_fail_as_they_are_told(rt: HostRuntime) -> Result<(), Fail> {
    let mut desk = failing_desk(rt.alloc())?;
    opens_fail(&rt, &mut desk)?;
    reads_fail(&rt, &mut desk);
    writes_fail(&rt, &mut desk);
    assert!(rt; desk.written() == b"xz".as_slice());
    Ok(())
}

/// How many bytes are read of an input whose read of this number fails.
fn read_whole(
    alloc: Global,
    limit: usize,
    failing: u64,
) -> Result<Result<usize, ReadAllError>, Fail>
    requires { limit < 8 }
{
    let mut desk = desk_of(alloc)?;
    desk.set_piece(3);
    desk.fail_read("a", failing)?;
    let input = desk.open("a")?;
    match read_all(alloc, &mut desk, input, limit) {
        Ok(bytes) => Ok(Ok(bytes.len())),
        Err(error) => Ok(Err(error)),
    }
}

#[test]
fn an_input_is_read_whole_or_not(rt: HostRuntime) -> Result<(), Fail> {
    let alloc = rt.alloc();
    assert_eq!(rt; read_whole(alloc, 6, 9)?, Err(ReadAllError::Long));
    assert_eq!(rt; read_whole(alloc, 7, 9)?, Ok(7));
    assert_eq!(rt; read_whole(alloc, 7, 4)?, Err(ReadAllError::Failed));
    assert_eq!(rt; read_whole(alloc, 7, 1)?, Err(ReadAllError::Failed));
    Ok(())
}

#[test]
fn an_output_is_written_up_to_a_fault(rt: HostRuntime) -> Result<(), Fail> {
    let mut desk = desk_of(rt.alloc())?;
    desk.set_piece(2);
    desk.fail_write(3)?;
    assert_eq!(rt; write_all(&mut desk, b"abcdef"), Err(DeskError::Failed));
    assert!(rt; desk.written() == b"abcd".as_slice());
    Ok(())
}

fn calm_desk_of(alloc: Global) -> Result<CalmDesk, AllocError>
    ensures { IfOk result (λ d. calm_inputs d ≡ 0) }
{
    let mut desk = CalmDesk::new(alloc);
    desk.add_file("a", b"one two")?;
    desk.add_file("a", b"three")?;
    Ok(desk)
}

/// Reads and writes in pieces, where the second input is missing.
fn move_calmly(rt: &impl Abort, alloc: Global, desk: &mut CalmDesk, front: &str) -> Result<(), Fail>
    requires { calm_inputs desk.old ≡ 0 }
{
    open_two(rt, desk, "b")?;
    read_first(rt, alloc, desk, front)?;
    assert!(rt; read_all(alloc, desk, 1, 7)?.is_empty());
    write_twice(rt, desk, front)?;
    assert!(rt; desk.written().ends_with(b"!wxyz"));
    assert_eq!(rt; desk.written().len(), front.len().saturating_add(5));
    Ok(())
}

#[test]
fn a_calm_desk_reads_and_writes(rt: HostRuntime) -> Result<(), Fail> {
    let alloc = rt.alloc();
    move_calmly(&rt, alloc, &mut calm_desk_of(alloc)?, "one ")?;
    for (piece, front) in [(1, "o"), (3, "one")] {
        let mut desk = calm_desk_of(alloc)?;
        desk.set_piece(piece);
        move_calmly(&rt, alloc, &mut desk, front)?;
    }
    Ok(())
}

#[test]
fn a_real_desk_opens_sixteen_inputs(rt: HostRuntime) -> Result<(), Fail> {
    let mut desk = RealDesk::new(rt);
    assert_eq!(rt; desk.open("/no/such/file"), Err(DeskError::Failed));
    for number in 0..16 {
        assert_eq!(rt; desk.open("/dev/null"), Ok(number));
    }
    assert_eq!(rt; desk.open("/dev/null"), Err(DeskError::Failed));
    Ok(())
}

#[test]
fn a_real_desk_reads_and_writes(rt: HostRuntime) -> Result<(), Fail> {
    let alloc = rt.alloc();
    let mut desk = RealDesk::new(rt);
    let empty = desk.open("/dev/null")?;
    let zeros = desk.open("/dev/zero")?;
    assert!(rt; read_all(alloc, &mut desk, empty, 9)?.is_empty());
    let mut buf = [1; 2];
    assert_eq!(rt; desk.read(zeros, &mut buf), Ok(2));
    assert_eq!(rt; buf, [0; 2]);
    let result = read_all(alloc, &mut desk, zeros, 9000);
    assert_eq!(rt; result.map(|bytes| bytes.len()), Err(ReadAllError::Long));
    assert_eq!(rt; write_all(&mut desk, b"written\n"), Ok(()));
    Ok(())
}

#[test]
fn errors_are_shown_by_their_names(rt: HostRuntime) -> Result<(), Fail> {
    let alloc = rt.alloc();
    assert_eq!(rt;
        format!(in alloc; "{} {}", DeskError::Failed, DeskError::Memory)?.as_str(),
        "Failed Memory"
    );
    let words = format!(in alloc;
        "{} {} {}",
        ReadAllError::Failed,
        ReadAllError::Long,
        ReadAllError::Memory
    )?;
    assert_eq!(rt; words.as_str(), "Failed Long Memory");
    Ok(())
}
