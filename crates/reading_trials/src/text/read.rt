//! Texts of tables, good and damaged, and the line that is named. Each expected number follows from the lines of the text: it is
//! that of the first line with which no saved text begins.
use kad_base::{Bytes, List, NoMemory};
use std::alloc::Global;
use std::test::Fail;
use table_file::{SaveFault, read, write};

const TABLE: &[u8] = b"table ffffffffffffffffffffffffffffffffffffffff 8 1\n";

const ROW: &[u8] = b"row -\n";

const LIVE: &[u8] = b"live 0000000000000000000000000000000000000001 127.0.0.1:6001 0\n";

const SPARE: &[u8] = b"spare 0000000000000000000000000000000000000002 127.0.0.1:6002\n";

const SIBLING: &[u8] = b"sibling 0000000000000000000000000000000000000001 127.0.0.1:6001\n";

const END: &[u8] = b"end\n";

/// Its whole lines end after 51, 57, 120, 184 and 188 bytes.
const WHOLE: &[u8] =
    b"table ffffffffffffffffffffffffffffffffffffffff 8 1\nrow -\nlive 0000000000000000000000000000000000000001 127.0.0.1:6001 0\nsibling 0000000000000000000000000000000000000001 127.0.0.1:6001\nend\n";

/// The line that is named, or 0 where the text is good. Texts are short.
fn bad_line(alloc: Global, text: &[u8]) -> Result<u32, NoMemory> {
    if text.len() > 4096 {
        return Ok(9999);
    }
    match read(alloc, text) {
        Ok(_) => Ok(0),
        Err(SaveFault::BadLine { line }) => Ok(line),
        Err(SaveFault::NoMemory) => Err(NoMemory),
    }
}

/// A text of three parts.
fn joined(alloc: Global, front: &[u8], middle: &[u8], back: &[u8]) -> Result<Bytes, NoMemory> {
    let mut text = List::new(alloc);
    text.extend(front)?;
    text.extend(middle)?;
    text.extend(back)?;
    Ok(text)
}

/// The line that is named of the lines `TABLE` and `ROW`, this part, and the last line.
fn in_a_row(alloc: Global, part: &[u8]) -> Result<u32, NoMemory> {
    let front = joined(alloc, TABLE, ROW, b"")?;
    bad_line(
        alloc,
        joined(alloc, front.as_slice(), part, END)?.as_slice(),
    )
}

/// The line that is named of two lines after these, and the last line.
fn in_order(alloc: Global, one: &[u8], two: &[u8]) -> Result<u32, NoMemory> {
    let both = joined(alloc, one, two, b"")?;
    in_a_row(alloc, both.as_slice())
}

/// The line that that many bytes of `WHOLE` lack: the one after their whole lines.
fn lacking(count: usize) -> u32 {
    if count < 51 {
        return 1;
    }
    if count < 57 {
        return 2;
    }
    if count < 120 {
        return 3;
    }
    if count < 184 { 4 } else { 5 }
}

#[test]
fn an_empty_text_lacks_its_first_line(rt: HostRuntime) -> Result<(), Fail> {
    assert_eq!(rt; bad_line(rt.alloc(), b"")?, 1);
    assert_eq!(rt; bad_line(rt.alloc(), b"\n")?, 1);
    Ok(())
}

#[test]
fn a_text_that_was_cut_off_lacks_the_next_line(rt: HostRuntime) -> Result<(), Fail> {
    for count in 0..188 {
        assert_eq!(rt; bad_line(rt.alloc(), &WHOLE[..count])?, lacking(count));
    }
    Ok(())
}

#[test]
fn a_good_text_is_read(rt: HostRuntime) -> Result<(), Fail> {
    assert_eq!(rt; bad_line(rt.alloc(), WHOLE)?, 0);
    let none = joined(rt.alloc(), TABLE, END, b"")?;
    assert_eq!(rt; bad_line(rt.alloc(), none.as_slice())?, 0);
    Ok(())
}

#[test]
fn rows_may_be_empty_and_follow_each_other(rt: HostRuntime) -> Result<(), Fail> {
    assert_eq!(rt; in_a_row(rt.alloc(), b"")?, 0);
    assert_eq!(rt; in_order(rt.alloc(), b"row 0\n", b"row 10\n")?, 0);
    Ok(())
}

#[test]
fn the_kinds_stand_in_their_order(rt: HostRuntime) -> Result<(), Fail> {
    assert_eq!(rt; in_order(rt.alloc(), LIVE, SPARE)?, 0);
    assert_eq!(rt; in_order(rt.alloc(), SPARE, LIVE)?, 4);
    assert_eq!(rt; in_order(rt.alloc(), SPARE, SIBLING)?, 0);
    Ok(())
}

#[test]
fn behind_a_sibling_stand_siblings(rt: HostRuntime) -> Result<(), Fail> {
    assert_eq!(rt; in_order(rt.alloc(), SIBLING, SIBLING)?, 0);
    assert_eq!(rt; in_order(rt.alloc(), SIBLING, ROW)?, 4);
    assert_eq!(rt; in_order(rt.alloc(), SIBLING, SPARE)?, 4);
    Ok(())
}

#[test]
fn a_second_table_is_bad(rt: HostRuntime) -> Result<(), Fail> {
    assert_eq!(rt; in_order(rt.alloc(), LIVE, TABLE)?, 4);
    let twice = joined(rt.alloc(), TABLE, TABLE, END)?;
    assert_eq!(rt; bad_line(rt.alloc(), twice.as_slice())?, 2);
    Ok(())
}

#[test]
fn a_live_contact_stands_in_a_row(rt: HostRuntime) -> Result<(), Fail> {
    let text = joined(rt.alloc(), TABLE, LIVE, END)?;
    assert_eq!(rt; bad_line(rt.alloc(), text.as_slice())?, 2);
    let text = joined(rt.alloc(), ROW, LIVE, END)?;
    assert_eq!(rt; bad_line(rt.alloc(), text.as_slice())?, 1);
    Ok(())
}

#[test]
fn nothing_stands_behind_the_end(rt: HostRuntime) -> Result<(), Fail> {
    let text = joined(rt.alloc(), WHOLE, b"x", b"")?;
    assert_eq!(rt; bad_line(rt.alloc(), text.as_slice())?, 6);
    let text = joined(rt.alloc(), WHOLE, b"\n", b"")?;
    assert_eq!(rt; bad_line(rt.alloc(), text.as_slice())?, 6);
    let text = joined(rt.alloc(), WHOLE, ROW, END)?;
    assert_eq!(rt; bad_line(rt.alloc(), text.as_slice())?, 6);
    Ok(())
}

#[test]
fn lines_end_with_a_line_feed_alone(rt: HostRuntime) -> Result<(), Fail> {
    let text = joined(rt.alloc(), TABLE, b"row -\r\n", END)?;
    assert_eq!(rt; bad_line(rt.alloc(), text.as_slice())?, 2);
    let text = joined(rt.alloc(), TABLE, b"row - \n", END)?;
    assert_eq!(rt; bad_line(rt.alloc(), text.as_slice())?, 2);
    Ok(())
}

#[test]
fn a_prefix_is_a_dash_or_bits(rt: HostRuntime) -> Result<(), Fail> {
    assert_eq!(rt; in_a_row(rt.alloc(), b"row \n")?, 3);
    assert_eq!(rt; in_a_row(rt.alloc(), b"row 0-\n")?, 3);
    assert_eq!(rt; in_a_row(rt.alloc(), b"row 02\n")?, 3);
    Ok(())
}

/// 160 bits, and 161.
#[test]
fn a_prefix_has_at_most_160_bits(rt: HostRuntime) -> Result<(), Fail> {
    let most =
        b"row 0000000000000000000000000000000000000000000000000000000000000000000000000000000000000000000000000000000000000000000000000000000000000000000000000000000000000001\n";
    let more =
        b"row 00000000000000000000000000000000000000000000000000000000000000000000000000000000000000000000000000000000000000000000000000000000000000000000000000000000000000001\n";
    assert_eq!(rt; in_a_row(rt.alloc(), most)?, 0);
    assert_eq!(rt; in_a_row(rt.alloc(), more)?, 3);
    Ok(())
}

#[test]
fn failures_are_0_or_1(rt: HostRuntime) -> Result<(), Fail> {
    let one = b"live 0000000000000000000000000000000000000001 127.0.0.1:6001 1\n";
    let two = b"live 0000000000000000000000000000000000000001 127.0.0.1:6001 2\n";
    assert_eq!(rt; in_a_row(rt.alloc(), one)?, 0);
    assert_eq!(rt; in_a_row(rt.alloc(), two)?, 3);
    Ok(())
}

#[test]
fn a_number_has_no_leading_zeros(rt: HostRuntime) -> Result<(), Fail> {
    let port = b"live 0000000000000000000000000000000000000001 127.0.0.1:06001 0\n";
    assert_eq!(rt; in_a_row(rt.alloc(), port)?, 3);
    let k = b"table ffffffffffffffffffffffffffffffffffffffff 08 1\nend\n";
    assert_eq!(rt; bad_line(rt.alloc(), k)?, 1);
    let large = b"table ffffffffffffffffffffffffffffffffffffffff 256 1\nend\n";
    assert_eq!(rt; bad_line(rt.alloc(), large)?, 1);
    Ok(())
}

#[test]
fn identifiers_are_in_lower_case(rt: HostRuntime) -> Result<(), Fail> {
    let upper = b"table FFFFFFFFFFFFFFFFFFFFFFFFFFFFFFFFFFFFFFFF 8 1\nend\n";
    assert_eq!(rt; bad_line(rt.alloc(), upper)?, 1);
    let short = b"table fffffffffffffffffffffffffffffffffffffff 8 1\nend\n";
    assert_eq!(rt; bad_line(rt.alloc(), short)?, 1);
    Ok(())
}

#[test]
fn an_address_of_ipv4_has_all_its_parts(rt: HostRuntime) -> Result<(), Fail> {
    let three = b"live 0000000000000000000000000000000000000001 127.0.1:6001 0\n";
    assert_eq!(rt; in_a_row(rt.alloc(), three)?, 3);
    let zero = b"live 0000000000000000000000000000000000000001 127.0.0.01:6001 0\n";
    assert_eq!(rt; in_a_row(rt.alloc(), zero)?, 3);
    Ok(())
}

/// The address is of the network that RFC 3849 keeps for examples.
#[test]
fn an_address_of_ipv6_is_read_with_all_its_groups(rt: HostRuntime) -> Result<(), Fail> {
    let all =
        b"spare 0000000000000000000000000000000000000001 [2001:0db8:0000:0000:0000:0000:0000:00ff]:6881\n";
    assert_eq!(rt; in_a_row(rt.alloc(), all)?, 0);
    let short = b"spare 0000000000000000000000000000000000000001 [2001:db8::ff]:6881\n";
    assert_eq!(rt; in_a_row(rt.alloc(), short)?, 3);
    let upper =
        b"spare 0000000000000000000000000000000000000001 [2001:0db8:0000:0000:0000:0000:0000:00FF]:6881\n";
    assert_eq!(rt; in_a_row(rt.alloc(), upper)?, 3);
    Ok(())
}

#[test]
fn other_bytes_than_ascii_are_bad(rt: HostRuntime) -> Result<(), Fail> {
    assert_eq!(rt; in_a_row(rt.alloc(), b"row \xff\n")?, 3);
    assert_eq!(rt; in_a_row(rt.alloc(), b"\xc3\xa4\n")?, 3);
    Ok(())
}

#[test]
fn what_is_read_is_written_as_it_was(rt: HostRuntime) -> Result<(), Fail> {
    let contacts = joined(rt.alloc(), LIVE, SPARE, SIBLING)?;
    let front = joined(rt.alloc(), TABLE, b"row 0\nrow 1\n", contacts.as_slice())?;
    let text = joined(rt.alloc(), front.as_slice(), END, b"")?;
    assert_eq!(rt;
        again(rt.alloc(), text.as_slice())?.as_slice(),
        text.as_slice()
    );
    Ok(())
}

/// What is read of a text, written again; nothing where it is bad.
fn again(alloc: Global, text: &[u8]) -> Result<Bytes, NoMemory> {
    if text.len() > 4096 {
        return Ok(List::new(alloc));
    }
    match read(alloc, text) {
        Ok(saved) => write(alloc, &saved),
        Err(_) => Ok(List::new(alloc)),
    }
}
