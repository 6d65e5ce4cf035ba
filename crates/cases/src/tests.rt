// What no clause says: that there is memory for what a program is given, and for its writer.
use super::*;

#[test]
fn a_file_is_read_up_to_its_limit(rt: HostRuntime) -> io::Result<()> {
    let given = [7u8; 16_385];
    let file = read_file(rt.alloc(), &given[..])?;
    assert_eq!(rt; file.len(), 16_384);
    Ok(())
}

#[test]
fn an_answer_is_written_whole(rt: HostRuntime) -> io::Result<()> {
    let mut out = [0u8; 4];
    answer(
        rt.alloc(),
        &b"abcd"[..],
        3,
        &mut out[..],
        |to, bytes| to.write_all(bytes),
    )?;
    assert_eq!(rt; &out[..], &b"abc\0"[..]);
    Ok(())
}

#[test]
fn each_case_is_named_and_shown(rt: HostRuntime) -> io::Result<()> {
    // Two cases of one number, which is the length of the file behind it.
    let mut given = [b'.'; 103];
    given[48..52].copy_from_slice(b"\x00\x02ab");
    given[100..103].copy_from_slice(b"\x00\x01c");
    let mut out = [0u8; 99];
    run(
        rt.alloc(),
        &given[..],
        &mut out[..],
        1,
        |to, case| to.write_all(case::file(case, 1)),
    )?;
    assert_eq!(rt; &out[48..50], &b"ab"[..]);
    assert_eq!(rt; out[98], b'c');
    Ok(())
}
