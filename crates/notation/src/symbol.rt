// A symbol, written as one character.
ghost use Rattle.notation.specs.Only.{Only};
ghost use Rattle.notation.specs.Symbols.{Writes, Written};

// The symbol that `c` writes, if it writes one: `0` to `9`, then `a` to `f`.
pub fn symbol_of(c: char) -> Option<u8>
    ensures { Only (Writes c) result }
{
    match c {
        '0'..='9' => Some((c as u32 - '0' as u32) as u8),
        'a'..='f' => Some((c as u32 - 'a' as u32) as u8 + 10),
        _ => None,
    }
}

// The character that writes `symbol`, if one does: there is none from 16 on.
pub fn char_of(symbol: u8) -> Option<char>
    ensures { Only (Written symbol) result }
{
    match symbol {
        0..=9 => Some((b'0' + symbol) as char),
        10..=15 => Some((b'a' + (symbol - 10)) as char),
        _ => None,
    }
}
