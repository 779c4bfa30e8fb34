//! Laws of the definitions that the contracts cite. Each law is the contract of a function that does nothing.

ghost use Rattle.std.specs.Prelude.{◌≡◌, ◌⊎◌, ℕ, List};
ghost use Rattle.covdata.specs.declared.trace_line.LineFault.{LineFault};
ghost use Rattle.covdata.specs.Records.{LineData};
ghost use Rattle.covline.specs.Spells.{Spells, HasFault};
ghost use Rattle.covline.specs.LineLaws.{JoinedAgain, GoodLines, GoodRest, FewLines, FewBytes, OnlyReturnsOff, OneAfterOther, MadeOfLines, PrintedSpells};

/// A text consists of its lines. Joining the pieces of a text, cut after each line feed, gives the text. A line is such a piece
/// without its line feed and the carriage returns at its end. No line, nor any end of a line (such as the name after a key), has a
/// line feed or ends in a carriage return. A text has at most as many lines as bytes, and the lines together have at most as many
/// bytes as the text. A text appended after a line feed adds exactly its own lines. Lines without line feeds and final carriage
/// returns, each followed by a line feed, make a text with exactly these lines.
pub fn lines_are_the_text()
    ensures joined { JoinedAgain }
    ensures good_lines { GoodLines }
    ensures good_rest { GoodRest }
    ensures few_lines { FewLines }
    ensures few_bytes { FewBytes }
    ensures only_returns_off { OnlyReturnsOff }
    ensures one_after_other { OneAfterOther }
    ensures made_of_lines { MadeOfLines }
{}

/// Each line has either exactly one meaning or exactly one error.
pub fn each_line_has_one_meaning()
    ensures one_meaning { (line : List ℕ) (x y : LineData) → Spells line x → Spells line y → x ≡ y }
    ensures no_fault_beside { (line : List ℕ) (says : LineData) (fault : LineFault) → Spells line says → ¬ HasFault line fault }
    ensures one_fault { (line : List ℕ) (x y : LineFault) → HasFault line x → HasFault line y → x ≡ y }
    ensures some { (line : List ℕ) → ((says : LineData) × Spells line says) ⊎ ((fault : LineFault) × HasFault line fault) }
{}

/// A printed record parses back: a record with lawful names and small enough numbers is printed as one line with the record's
/// meaning.
pub fn printed_records_spell()
    ensures { PrintedSpells }
{}
