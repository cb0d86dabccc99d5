// A game, and the game of the exchanged file.
use crate::sheet::Sheet;
use exchange::exchange;
use input::{FILE_ROOM, filled};

// The sheets of the two games, and two answers of yes or no: the exchanged file was written, as long as the file; exchanging it leads
// back.
#[derive(Clone, Copy)]
pub struct Pair {
    pub one: Sheet,
    pub other: Sheet,
    pub is_written: bool,
    pub leads_back: bool,
}

impl Pair {
    // Both files are solved with the same allowance.
    pub fn of_file(file: &[u8], allowance: u16) -> Pair {
        let mut room = filled::<u8, FILE_ROOM>(0);
        let mut room_back = filled::<u8, FILE_ROOM>(0);
        let other = exchanged(file, &mut room);
        Pair {
            one: Sheet::of_file(file, allowance),
            other: Sheet::of_file(other, allowance),
            is_written: other.len() == file.len(),
            leads_back: exchanged(other, &mut room_back) == file,
        }
    }
}

// The exchanged file, which is written into `room`, and no bytes where the exchange refuses it.
fn exchanged<'a>(file: &[u8], room: &'a mut [u8]) -> &'a [u8] {
    let length = exchange(file, room).unwrap_or(0);
    room.get(..length).unwrap_or(&[])
}
