// Records: their own bytes are read, their trivia printed where they are shown, and what is stored before it is printed
// is skipped.
ghost use Rattle.std.specs.Prelude.{◌≡◌};
ghost use Rattle.events.specs.Views.{bit_at};
ghost use Rattle.printers.specs.Records.{Opens, Skips};

use crate::{Printer, trivia};
use tree::grammar::Class;
use tree::own::Own;
use tree::{own, parts};

// Whether the field of an index stands.
pub fn stands(bits: usize, index: usize) -> bool
    ensures { result ≡ bit_at index bits }
{
    index < 64 && (bits >> index) % 2 == 1
}

// Reads the own bytes of a record that may stand or not, and prints its trivia where they are shown; none where nothing
// is left to print of it.
pub fn open(
    printer: &mut Printer,
    levels: usize,
    class: Class,
    stands: bool,
    shown: bool,
) -> Option<Own>
    ensures { Opens printer.old printer.new shown levels class stands result }
{
    if !stands || printer.ended.is_some() {
        return None;
    }
    match own::read_own(printer.tree, printer.at, class, levels) {
        Ok(own) => {
            trivia::shown_trivia(printer, own, shown);
            printer.move_to(own.end);
            Some(own)
        }
        Err(refusal) => {
            printer.ended = Some(refusal);
            None
        }
    }
}

// Goes on behind a record that may stand or not.
pub fn skip(printer: &mut Printer, levels: usize, class: Class, stands: bool)
    ensures { Skips printer.old printer.new levels class stands }
{
    if !stands || printer.ended.is_some() {
        return;
    }
    match parts::skip(printer.tree, printer.at, class, levels) {
        Ok(place) => printer.move_to(place),
        Err(refusal) => printer.ended = Some(refusal),
    }
}
