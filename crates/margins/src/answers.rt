// What is printed and told of what the input holds.
ghost use Rattle.std.specs.Prelude.{◌≡◌, ◌≤◌, length};
ghost use Rattle.text.specs.Inner.{Puts};
ghost use Rattle.margins.specs.Printed.{made_for, printed_for, told_for};

use crate::asked::Asked;
use crate::figures::NO_FIGURES;
use crate::positions::Held;
use crate::printed::put_made;
use crate::told::{put_bad, put_told};
use currency::Made;

// How many bytes of the two rooms go to standard output and to standard error.
#[derive(Clone, Copy)]
pub(crate) struct Said {
    pub(crate) printed: usize,
    pub(crate) told: usize,
}

fn made_for(asked: Asked, held: Held) -> Made
    ensures { result ≡ made_for asked held }
{
    let figures = held.figures.unwrap_or(NO_FIGURES);
    exposure::margin(
        asked.serial,
        asked.account,
        asked.initial,
        held.positions,
        held.number,
        figures.premium,
        figures.loss,
        figures.exercise,
        figures.settlement,
    )
}

pub(crate) fn answer(asked: Asked, held: Held, out: &mut [u8], err: &mut [u8]) -> Said
    requires { (70 ≤ length out.old) × (70 ≤ length err.old) }
    ensures puts { Puts out.old 0 (printed_for asked held) out.new result.printed }
    ensures puts_2 { Puts err.old 0 (told_for asked held) err.new result.told }
{
    if let Some(line) = held.bad {
        let told = put_bad(err, line);
        return Said { printed: 0, told };
    }
    let made = made_for(asked, held);
    let printed = put_made(out, asked.record, made);
    let told = put_told(err, asked.record, made);
    Said { printed, told }
}
