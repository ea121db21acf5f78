// Laws of the canonical text, each the contract of a function that does nothing.
ghost use Rattle.surf_manifest_print.specs.LegendTexts.{ReadsLegend};
ghost use Rattle.surf_manifest_print.specs.Prints.{KeepsFormat, ReadsPrint};

/// The grammar reads what is printed, for any number of rules and sites.
pub fn print_is_read()
    ensures { ReadsPrint }
{}

/// What is printed of a text that was printed is that text.
pub fn print_is_kept()
    ensures { KeepsFormat }
{}

/// What is printed with a legend has that legend, where its names are words and its inputs stand
/// apart.
pub fn legend_is_read()
    ensures { ReadsLegend }
{}
