// The panel: it reads commands, a line at a time, and answers each line before it reads the next.
#![tactic(auto)]

use arrayvec::ArrayVec;
use notation::word::LONGEST;
use replies::Told;
use session::{Panel, answer_line};
use std::io;
use std::io::Read;

mod replies;
mod session;

// The words of work memory that the calls of a code are lent.
const WORK: usize = 12800;

// The bytes that are held of a line: with one past the most that a line has, it is seen to be too long.
const HELD: usize = LONGEST + 1;

// The next line of the input, without its line feed, as far as it is held; there is none at the end.
fn next_line<R: Read>(input: &mut R) -> io::Result<Option<ArrayVec<u8, HELD>>> {
    let mut line = None;
    for byte in input.by_ref().bytes() {
        let held = line.get_or_insert_with(ArrayVec::<u8, HELD>::new);
        match byte? {
            b'\n' => break,
            byte => {
                // What finds no room is let go.
                let _ = held.try_push(byte);
            }
        }
    }
    Ok(line)
}

fn main(rt: HostRuntime) -> io::Result<()> {
    let mut input = rt.stdin();
    let mut work = [0; WORK];
    let mut panel = Panel::Fresh;
    // The input has no count of lines; this is how a loop is written that waits on it and is proved to end.
    for _ in 0..u64::MAX {
        let Some(line) = next_line(&mut input)? else {
            break;
        };
        let (next, answer) = answer_line(panel, &line, &mut work);
        panel = next;
        println!(rt; "{}", Told(answer))?;
    }
    Ok(())
}
