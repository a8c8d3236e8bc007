//! Laws of the bytes of a table. The functions do nothing: their contracts are the laws.
ghost use Rattle.nl_table.specs.Laws.{HeadersHaveSixLines, LinesAreOne, LinesSayTheirCells};
ghost use Rattle.nl_table.specs.ReachLaws.{FrontsOfRowsReach, MisfitsStay, ReachIsOne, RowsStay};
ghost use Rattle.nl_table.specs.PieceLaws.{FrontsAreCutIntoLines, FrontsHaveNoEnd, LinesHaveTheirEnd, PiecesAreTheBytes, PiecesAreTold, PiecesStay};

/// The cells of a line are found again from its bytes: two lists of one or more cells have the same line only where they are equal.
pub fn lines_say_their_cells()
    ensures { LinesSayTheirCells }
{}

/// A line is one line, and a header six, also where cells hold quotes and line feeds.
pub fn lines_are_told_apart()
    ensures one { LinesAreOne }
    ensures six { HeadersHaveSixLines }
{}

/// A line has one end, behind its last byte, whatever follows it.
pub fn lines_are_pieces()
    ensures whole { LinesHaveTheirEnd }
    ensures fronts { FrontsHaveNoEnd }
{}

/// Bytes are cut in one way: into pieces that have one end each, behind their last byte, and what is left over, which has none. More bytes
/// behind them change no piece.
pub fn bytes_are_cut_in_one_way()
    ensures joined { PiecesAreTheBytes }
    ensures told { PiecesAreTold }
    ensures stay { PiecesStay }
{}

/// A front of lines is cut into just the lines that are whole in it, and a true front of the next one is left over.
pub fn fronts_are_cut_into_lines()
    ensures { FrontsAreCutIntoLines }
{}

/// How far a partial table reaches has one answer. Whether a piece is due rests on the pieces before it alone, so that more bytes behind them
/// change no judgement; and a front of the rows of a table reaches as those rows do that are whole in it.
pub fn pieces_are_judged_by_those_before()
    ensures one { ReachIsOne }
    ensures misfits { MisfitsStay }
    ensures rows { RowsStay }
    ensures fronts { FrontsOfRowsReach }
{}
