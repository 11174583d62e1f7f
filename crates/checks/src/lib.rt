// Checks that the calls share.
#![tactic(auto)]

ghost use Rattle.std.specs.Prelude.{◌≡◌, ◌+◌, ◌<◌, ◌^◌, length};
ghost use Rattle.refusals.specs.Stop.{checked_of};
ghost use Rattle.checks.specs.Check.{room_stop, output_stop, cells_stop};

use refusals::Refusal;

// What is wrong with a text of this size, its mark and the room above it.
pub fn check_room(size: usize, used: usize, needed: usize) -> Result<(), Refusal>
    ensures { checked_of result ≡ room_stop needed size used }
{
    if 65536 < size {
        return Err(Refusal::NoRoom(0));
    }
    if size < used {
        return Err(Refusal::NoRoom(0));
    }
    if size - used < needed {
        return Err(Refusal::NoRoom(0));
    }
    Ok(())
}

// What is wrong with an output of this size, where a condition is to be written.
pub fn check_output(size: usize) -> Result<(), Refusal>
    ensures { checked_of result ≡ output_stop size }
{
    if size < 448 {
        return Err(Refusal::NoRoom(0));
    }
    Ok(())
}

// What is wrong with cells, the first of which has this place.
pub fn check_cells(words: &[u64], used: usize, place: usize) -> Result<(), Refusal>
    requires { place + length words.now < 2 ^ 64 }
    ensures { checked_of result ≡ cells_stop used place words.now }
{
    for (i, word) in words.iter().enumerate() {
        cells::check_cell(*word, used, place + i)?;
    }
    Ok(())
}
