// The parts of an import's arguments: `ImportAs`, `ImportArgs::All` and `SpecificImportArg`.
ghost use Rattle.std.specs.Prelude.{true, false};
ghost use Rattle.tree.specs.declared.grammar.Class.TheVariants as class;
ghost use Rattle.tree.specs.declared.grammar.Kind.TheVariants as kind;
ghost use Rattle.events.specs.Printed.{plain};
ghost use Rattle.events.specs.Trees as Trees;
ghost use Rattle.printers.specs.Records.{GoesRecord, GoesField, GoesNode};

use printers::{Printer, leaf, record};
use tree::grammar::Class;

// `as` with a path, which may stand or not.
fn format_import_as(printer: &mut Printer, levels: usize, stands: bool)
    ensures { let place = Trees.leaf plain in
        GoesField printer.old printer.new place true levels class.AsRecord stands }
{
    let Some(_) = record::open(printer, levels, Class::AsRecord, stands, true) else {
        return;
    };
    leaf::format_leaf(printer, levels - 1, leaf::WORD);
    printer.push(b" ");
    leaf::format_leaf(printer, levels - 1, leaf::WORD);
}

// Everything: a star, with `as` or without.
pub(crate) fn format_import_all(printer: &mut Printer, levels: usize, bits: usize)
    ensures { GoesNode printer.old printer.new kind.ImportAll bits levels }
{
    leaf::format_leaf(printer, levels, leaf::CHARACTER);
    printer.spc_if_next();
    format_import_as(printer, levels, record::stands(bits, 1));
    printer.clear_spc_if_next();
}

// A path, with `as` or without; its own trivia are not printed.
pub(crate) fn format_import_path(printer: &mut Printer, levels: usize)
    ensures { let place = Trees.leaf plain in
        GoesRecord printer.old printer.new place false levels class.ImportPath }
{
    let Some(own) = record::open(printer, levels, Class::ImportPath, true, false) else {
        return;
    };
    leaf::format_leaf(printer, levels - 1, leaf::WORD);
    printer.spc_if_next();
    format_import_as(printer, levels - 1, record::stands(own.map / 2, 1));
}
