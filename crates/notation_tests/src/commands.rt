// Lines, and the commands that they say.
use arrayvec::CapacityError;
use notation::command::{Command, Order, read_command};
use notation::word::Word;
use std::test::Fail;

// The word with these symbols.
pub(crate) fn word(symbols: &[u8]) -> Result<Word, CapacityError> {
    Word::try_from(symbols)
}

// A kind with this order and this length.
fn kind(order: Order, length: usize) -> Option<Command> {
    Some(Command::Kind { order, length })
}

#[test]
fn kinds(rt: HostRuntime) {
    assert_eq!(rt; read_command(b"kind 16 24"), kind(Order::Sixteen, 24));
    assert_eq!(rt; read_command(b"kind 3 005"), kind(Order::Three, 5));
    assert_eq!(rt; read_command(b"kind 4 000"), kind(Order::Four, 0));
    assert_eq!(rt; read_command(b"kind 2 999"), kind(Order::Two, 999));
}

#[test]
fn no_kinds(rt: HostRuntime) {
    assert_eq!(rt; read_command(b"kind 3 0005"), None);
    assert_eq!(rt; read_command(b"kind  2 5"), None);
    assert_eq!(rt; read_command(b"kind 2  5"), None);
    assert_eq!(rt; read_command(b"kind 2 5 "), None);
    assert_eq!(rt; read_command(b"kind 5 5"), None);
    assert_eq!(rt; read_command(b"kind 02 5"), None);
    assert_eq!(rt; read_command(b"kind 2 +5"), None);
    assert_eq!(rt; read_command(b"kind 2 "), None);
    assert_eq!(rt; read_command(b"kind 2"), None);
}

#[test]
fn rows(rt: HostRuntime) -> Result<(), Fail> {
    assert_eq!(rt; read_command(b"row -"), Some(Command::Row(word(&[])?)));
    assert_eq!(rt;
        read_command(b"row 019af"),
        Some(Command::Row(word(&[0, 1, 9, 10, 15])?))
    );
    assert_eq!(rt; read_command(b"row"), None);
    assert_eq!(rt; read_command(b"row "), None);
    assert_eq!(rt; read_command(b"row 01g"), None);
    assert_eq!(rt; read_command(b"row 01A"), None);
    assert_eq!(rt; read_command(b"row 0 1"), None);
    assert_eq!(rt; read_command(b"row --"), None);
    assert_eq!(rt; read_command(b"rows 01"), None);
    Ok(())
}

#[test]
fn messages(rt: HostRuntime) -> Result<(), Fail> {
    assert_eq!(rt; read_command(b"send -"), Some(Command::Send(word(&[])?)));
    assert_eq!(rt;
        read_command(b"send 10"),
        Some(Command::Send(word(&[1, 0])?))
    );
    assert_eq!(rt; read_command(b"send"), None);
    assert_eq!(rt; read_command(b"send \xff"), None);
    Ok(())
}

#[test]
fn received(rt: HostRuntime) -> Result<(), Fail> {
    assert_eq!(rt; read_command(b"hear -"), Some(Command::Hear(word(&[])?)));
    assert_eq!(rt;
        read_command(b"hear 10f"),
        Some(Command::Hear(word(&[1, 0, 15])?))
    );
    assert_eq!(rt; read_command(b"hear"), None);
    assert_eq!(rt; read_command(b"hear "), None);
    assert_eq!(rt; read_command(b"hear  1"), None);
    assert_eq!(rt; read_command(b"hear 1 "), None);
    assert_eq!(rt; read_command(b" hear 1"), None);
    assert_eq!(rt; read_command(b"hear1"), None);
    assert_eq!(rt; read_command(b"heard 1"), None);
    assert_eq!(rt; read_command(b"hear 1g"), None);
    Ok(())
}

#[test]
fn bare_commands(rt: HostRuntime) {
    assert_eq!(rt; read_command(b"back"), Some(Command::Back));
    assert_eq!(rt; read_command(b"seal"), Some(Command::Seal));
    assert_eq!(rt; read_command(b"distance"), Some(Command::Distance));
    assert_eq!(rt; read_command(b"noise"), Some(Command::Noise));
    assert_eq!(rt; read_command(b"distance 1"), None);
    assert_eq!(rt; read_command(b"distance -"), None);
    assert_eq!(rt; read_command(b" distance"), None);
    assert_eq!(rt; read_command(b"distanc"), None);
    assert_eq!(rt; read_command(b"noise "), None);
    assert_eq!(rt; read_command(b"noises"), None);
    assert_eq!(rt; read_command(b"Noise"), None);
    assert_eq!(rt; read_command(b"back "), None);
    assert_eq!(rt; read_command(b" back"), None);
    assert_eq!(rt; read_command(b"Back"), None);
    assert_eq!(rt; read_command(b""), None);
}

#[test]
fn one_byte_rows(rt: HostRuntime) -> Result<(), Fail> {
    for byte in 0..=255u8 {
        let line = [b'r', b'o', b'w', b' ', byte];
        let said = match byte {
            b'0'..=b'9' => Some(Command::Row(word(&[byte - b'0'])?)),
            b'a'..=b'f' => Some(Command::Row(word(&[byte - b'a' + 10])?)),
            b'-' => Some(Command::Row(word(&[])?)),
            _ => None,
        };
        assert_eq!(rt; read_command(&line), said);
    }
    Ok(())
}

#[test]
fn long_lines(rt: HostRuntime) -> Result<(), Fail> {
    let mut line = [b'7'; 81];
    line[0] = b'r';
    line[1] = b'o';
    line[2] = b'w';
    line[3] = b' ';
    assert_eq!(rt;
        read_command(&line[0..80]),
        Some(Command::Row(word(&[7; 76])?))
    );
    assert_eq!(rt; read_command(&line), None);
    Ok(())
}
