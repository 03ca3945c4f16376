// When a line declines a call that writes.
ghost use Rattle.std.specs.Prelude.{◌≡◌};
ghost use Rattle.code.specs.Refusals.{numbered};
ghost use Rattle.line.specs.Writing.{put_refusal, turn_refusal, putting, turning};

use line::refusal::{PutRefusal, TurnRefusal};
use line::tap::Tap;

// The largest number of ten bits.
const LARGEST: u16 = 1023;

// Checks whether a line of the capacity takes the character, by its number and then by the room.
pub fn check_put<L: Tap>(line: &L, capacity: usize, character: u16) -> Result<(), PutRefusal>
    requires { capacity ≡ (L.meaning line.now).capacity }
    ensures { numbered put_refusal result ≡ (putting (L.meaning line.now) character).answer }
{
    if character > LARGEST {
        return Err(PutRefusal::NotACharacter);
    }
    if capacity.saturating_sub(line.count()) < 10 {
        return Err(PutRefusal::NoRoom);
    }
    Ok(())
}

// Checks whether a bit waits at the place.
pub fn check_turn<L: Tap>(line: &L, place: usize) -> Result<(), TurnRefusal>
    ensures { numbered turn_refusal result ≡ (turning (L.meaning line.now) place).answer }
{
    if place >= line.count() {
        return Err(TurnRefusal::NotWaiting);
    }
    Ok(())
}
