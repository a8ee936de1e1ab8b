use super::*;
use hpb_rules::{Command, Letter, Letters};
use rtrb::Producer;
use std::alloc::{AllocError, Global};
use std::process::Abort;
use std::test::Fail;

/// The ends at which the clients of seats post letters, by seat number.
type Seats = Vec<Producer<Slip>>;

/// Makes one more seat.
fn add_seat(alloc: Global, seats: &mut Seats, rings: &mut Vec<Ring<u8>>) -> Result<(), AllocError> {
    let (ends, ring) = seat_rings(alloc)?;
    let Ends { letters, .. } = ends;
    rings.push(ring)?;
    seats.push(letters)?;
    Ok(())
}

/// Makes `count` seats, 32 at most, and the intake over their rings.
fn make_seats(
    rt: &impl Abort,
    alloc: Global,
    count: usize,
) -> Result<(Seats, Intake<u8>), AllocError> {
    let mut seats = Vec::new(alloc);
    let mut rings = Vec::new(alloc);
    for _ in 0..count {
        add_seat(alloc, &mut seats, &mut rings)?;
    }
    assert!(rt; rings.len() <= 32);
    Ok((seats, Intake::new(rings)))
}

/// Posts `count` letters, as the client of a seat does. Letters without room are lost.
fn post(seats: &mut Seats, seat: u8, count: usize) {
    let letter = Letter {
        seat,
        command: Command::Close { ticket: 1 },
    };
    if let Some(letters) = seats.get_mut(seat as usize) {
        for _ in 0..count {
            let _ = letters.push(Slip::of(&letter));
        }
    }
}

/// The seat of the letter at a place.
fn seat_at(letters: &Letters, place: usize) -> Option<u8> {
    match letters.get(place) {
        Some(letter) => Some(letter.seat),
        None => None,
    }
}

/// Whether letters are of these seats, in their order.
fn are_of(letters: &Letters, seats: &[u8]) -> bool {
    let mut same = letters.len() == seats.len();
    for (place, seat) in seats.iter().enumerate() {
        same &= seat_at(letters, place) == Some(*seat);
    }
    same
}

/// Three seats with a letter each: from call to call another seat comes first, so none is always the last.
#[test]
fn each_gathering_begins_at_another_seat(rt: HostRuntime) -> Result<(), Fail> {
    let (mut seats, mut intake) = make_seats(&rt, rt.alloc(), 3)?;
    for order in [[0, 1, 2], [1, 2, 0], [2, 0, 1], [0, 1, 2]] {
        for seat in 0..3 {
            post(&mut seats, seat, 1);
        }
        assert!(rt; are_of(&intake.gather(), &order));
    }
    Ok(())
}

/// Three letters of one seat and one of another: one gathering takes all that wait.
#[test]
fn one_gathering_takes_all_that_wait(rt: HostRuntime) -> Result<(), Fail> {
    let (mut seats, mut intake) = make_seats(&rt, rt.alloc(), 2)?;
    post(&mut seats, 0, 3);
    post(&mut seats, 1, 1);
    assert!(rt; are_of(&intake.gather(), &[0, 0, 0, 1]));
    Ok(())
}

/// Five seats with 16 letters each are more than one gathering holds. The next one continues at the seat at which it
/// was full, and reaches the seats just served last.
#[test]
fn a_gathering_goes_on_where_the_last_was_full(rt: HostRuntime) -> Result<(), Fail> {
    let (mut seats, mut intake) = make_seats(&rt, rt.alloc(), 5)?;
    for seat in 0..5 {
        post(&mut seats, seat, 16);
    }
    assert_eq!(rt; intake.gather().len(), 64);
    post(&mut seats, 1, 1);
    let next = intake.gather();
    assert_eq!(rt; next.len(), 17);
    for (place, seat) in [(0, 4), (15, 4), (16, 1)] {
        assert_eq!(rt; seat_at(&next, place), Some(seat));
    }
    Ok(())
}

/// Each of 32 seats has a full ring before each gathering, which takes the letters of four of them. Each begins three
/// seats further, so eleven gatherings reach all.
#[test]
fn a_flood_starves_no_seat(rt: HostRuntime) -> Result<(), Fail> {
    let (mut seats, mut intake) = make_seats(&rt, rt.alloc(), 32)?;
    let mut served = [false; 32];
    for _ in 0..11 {
        for seat in 0..32 {
            post(&mut seats, seat, 16);
        }
        for letter in intake.gather().as_slice() {
            if let Some(is_served) = served.get_mut(letter.seat as usize) {
                *is_served = true;
            }
        }
    }
    assert_eq!(rt; served, [true; 32]);
    Ok(())
}
