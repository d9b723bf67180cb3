// Words, and the texts that spell them.
use crate::commands::word;
use notation::symbol::{char_of, symbol_of};
use notation::word::{InPrint, Word, read_word, spelled};
use std::test::Fail;

#[test]
fn symbols(rt: HostRuntime) -> Result<(), Fail> {
    for symbol in 0..16u8 {
        let c = char_of(symbol).ok_or("no character")?;
        assert_eq!(rt; symbol_of(c).ok_or("no symbol")?, symbol);
    }
    assert_eq!(rt; char_of(16), None);
    assert_eq!(rt; symbol_of('g'), None);
    assert_eq!(rt; symbol_of('A'), None);
    assert_eq!(rt; symbol_of('é'), None);
    Ok(())
}

#[test]
fn reading(rt: HostRuntime) -> Result<(), Fail> {
    let all = [0, 1, 2, 3, 4, 5, 6, 7, 8, 9, 10, 11, 12, 13, 14, 15];
    assert_eq!(rt; read_word(b"-"), Some(word(&[])?));
    assert_eq!(rt; read_word(b"0123456789abcdef"), Some(word(&all)?));
    assert!(rt; read_word(b"").is_none());
    assert!(rt; read_word(b"0-").is_none());
    assert_eq!(rt; read_word(&[b'f'; 80]), Some(word(&[15; 80])?));
    assert!(rt; read_word(&[b'f'; 81]).is_none());
    Ok(())
}

#[test]
fn printing(rt: HostRuntime) -> Result<(), Fail> {
    let heap = rt.alloc();
    assert_eq!(rt; spelled(heap, &[])?.as_str(), "-");
    assert_eq!(rt; spelled(heap, &[0, 9, 10, 15])?.as_str(), "09af");
    assert_eq!(rt; spelled(heap, &[1, 16, 255, 2])?.as_str(), "1??2");
    Ok(())
}

#[test]
fn printing_in_place(rt: HostRuntime) -> Result<(), Fail> {
    let text = format!(in rt.alloc(); "{} {}", InPrint(&[0, 15, 16]), InPrint(&[]))?;
    assert_eq!(rt; text.as_str(), "0f? -");
    Ok(())
}

#[test]
fn lent_words(rt: HostRuntime) -> Result<(), Fail> {
    assert_eq!(rt;
        Word::try_from([7; 80].as_slice())?.symbols(),
        [7; 80].as_slice()
    );
    assert!(rt; Word::try_from([7; 81].as_slice()).is_err());
    Ok(())
}

#[test]
fn round_trip(rt: HostRuntime) -> Result<(), Fail> {
    let symbols = [3, 0, 15, 8];
    let text = spelled(rt.alloc(), &symbols)?;
    assert_eq!(rt; read_word(text.as_bytes()), Some(word(&symbols)?));
    Ok(())
}
