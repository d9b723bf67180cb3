// The two numbers of a kind: the order of a field and the length of a row.
ghost use Rattle.notation.specs.Commands.{KindOf, Number, OrderNamed};
ghost use Rattle.notation.specs.Only.{Only};
ghost use Rattle.notation.specs.Parts.{Parted, texts};
ghost use Rattle.std.specs.Option.{option_map};

use super::Order;
use std::str;

// The order and the length that the text gives, one space apart.
pub(super) fn kind_of(text: &[u8]) -> Option<(Order, usize)>
    ensures { Only (KindOf text.now) result }
{
    let (order, length) = parted(text)?;
    order_of(order).zip(number_of(length))
}

// What stands before the first space of the text, and what stands after it.
pub(super) fn parted(text: &[u8]) -> Option<(&[u8], &[u8])>
    ensures { Only (Parted text.now) (option_map texts result) }
{
    let space = text.iter().position(|byte| *byte == b' ')?;
    Some((&text[..space], &text[space + 1..]))
}

// The order of a field, as it is written.
fn order_of(text: &[u8]) -> Option<Order>
    ensures { Only (OrderNamed text.now) result }
{
    match text {
        b"2" => Some(Order::Two),
        b"3" => Some(Order::Three),
        b"4" => Some(Order::Four),
        b"16" => Some(Order::Sixteen),
        _ => None,
    }
}

// The number that one to three decimal digits write.
fn number_of(text: &[u8]) -> Option<usize>
    ensures { Only (Number text.now) result }
{
    // A sign would be read too, so that digits are asked for first.
    if text.len() > 3 || !text.iter().all(u8::is_ascii_digit) {
        return None;
    }
    str::from_utf8(text).ok()?.parse().ok()
}
