//! Laws of the definitions in this crate's specs. Each is the contract of a function that does nothing.

ghost use Rattle.tl_table.specs.FewCells.{FormedHasFewCells};
ghost use Rattle.tl_table.specs.Laws.{EachNumberIsOfOneTable, FileSpellsOneTable, FormedTablesAreSound, NoCellCrossesTheHead};
ghost use Rattle.tl_table.specs.Laws.{NoPageIsNarrowerThanAChain, TheFirstHasTheLeastNumber};

use tl_tree::tokens_spell_one_tree;

/// A file spells at most one table for each breaking.
pub fn file_spells_one_table()
    ensures { FileSpellsOneTable }
{
    tokens_spell_one_tree();
}

/// No page that a layout of a table fits is narrower than a chain of the table weighs.
pub fn no_page_is_narrower_than_a_chain()
    ensures { NoPageIsNarrowerThanAChain }
{}

/// The first table of a sound tree without a grid, in the order in which tables begin, is the first by
/// number.
pub fn the_first_without_a_grid_has_the_least_number()
    ensures { TheFirstHasTheLeastNumber }
{}

/// A table that a tree becomes has no more cells, at all depths, than a grid may have and a caption.
pub fn formed_has_few_cells()
    ensures { FormedHasFewCells }
{}

/// Each number from a sound table's own on is that of exactly one of the table and those inside it.
pub fn each_number_is_of_one_table()
    ensures { EachNumberIsOfOneTable }
{}

/// Each table that a sound tree becomes is sound, and a file can spell it by the same breaking.
pub fn formed_tables_are_sound()
    ensures { FormedTablesAreSound }
{}

/// No cell of a sound table crosses the row at which its head ends: each is above it or below it.
pub fn no_cell_crosses_the_head()
    ensures { NoCellCrossesTheHead }
{}
