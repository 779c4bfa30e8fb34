//! Prints rates of points hit, with their bars.

ghost use Rattle.std.specs.Prelude.{◌≡◌, ◌<◌, ◌≤◌, ◌++◌, codes};
ghost use Rattle.covtable.specs.Totals.{AreTotals};
ghost use Rattle.covhtml.specs.Rates.{bar, card, card_value, cards, percentage, rate, rate_cells, totals_cells};

use crate::markup::METER;
use crate::numbers::{put_number, put_numbers};
use covreport::{Printer, tenths};
use covtable::Totals;

/// Prints the percentage of points hit, or `-` if no points are found.
pub(crate) fn put_rate<P: Printer>(hit: u64, found: u64, out: &mut P)
    requires { hit ≤ found }
    ensures { P.text out.new ≡ P.text out.old ++ rate hit found }
{
    if found == 0 {
        return out.put(b"-");
    }
    put_percentage(tenths(hit, found), out);
}

/// Prints tenths of a percent as a percentage.
fn put_percentage<P: Printer>(tenths: u32, out: &mut P)
    ensures { P.text out.new ≡ P.text out.old ++ percentage tenths }
{
    put_number(u64::from(tenths / 10), out);
    out.put(b".");
    put_number(u64::from(tenths % 10), out);
    out.put(b"%");
}

/// Prints a bar as long as the rate of points hit. Prints nothing if no points are found.
fn put_bar<P: Printer>(hit: u64, found: u64, out: &mut P)
    requires { hit ≤ found }
    ensures { P.text out.new ≡ P.text out.old ++ bar hit found }
{
    if found == 0 {
        return;
    }
    out.put(METER);
    put_number(u64::from(tenths(hit, found)), out);
    out.put(b"\"></meter>");
}

/// Prints the cells of a row that has these totals.
pub(crate) fn put_totals_cells<P: Printer>(totals: &Totals, out: &mut P)
    requires { AreTotals totals.now }
    ensures { P.text out.new ≡ P.text out.old ++ totals_cells totals.now }
{
    out.put(b"<td>");
    put_bar(totals.lh, totals.lf, out);
    put_rate_cells(totals.lh, totals.lf, out);
    put_rate_cells(totals.fh, totals.ff, out);
    put_rate_cells(totals.bh, totals.bf, out);
    out.put(b"\n");
}

/// Prints the percentage of points hit, and how many points are hit and found, each in a cell.
fn put_rate_cells<P: Printer>(hit: u64, found: u64, out: &mut P)
    requires { hit ≤ found }
    ensures { P.text out.new ≡ P.text out.old ++ rate_cells hit found }
{
    out.put(b"<td>");
    put_rate(hit, found, out);
    out.put(b"<td>");
    put_numbers(hit, found, out);
}

/// Prints a card for each kind of points.
pub(crate) fn put_cards<P: Printer>(totals: &Totals, out: &mut P)
    requires { AreTotals totals.now }
    ensures { P.text out.new ≡ P.text out.old ++ cards totals.now }
{
    out.put(b"<div class=\"cards\">\n");
    put_card(b"Lines", totals.lh, totals.lf, out);
    put_card(b"Functions", totals.fh, totals.ff, out);
    put_card(b"Branches", totals.bh, totals.bf, out);
    out.put(b"</div>\n");
}

/// Prints a card that says how many points of a kind are hit.
fn put_card<P: Printer>(label: &[u8], hit: u64, found: u64, out: &mut P)
    requires { hit ≤ found }
    ensures { P.text out.new ≡ P.text out.old ++ card label.now hit found }
{
    out.put(b"<p>");
    out.put(label);
    out.put(b" <b>");
    put_card_value(hit, found, out);
    out.put(b"</p>\n");
}

/// Prints the percentage of points hit, how many points are hit and found, and a bar.
fn put_card_value<P: Printer>(hit: u64, found: u64, out: &mut P)
    requires { hit ≤ found }
    ensures { P.text out.new ≡ P.text out.old ++ card_value hit found }
{
    put_rate(hit, found, out);
    out.put(b"</b> ");
    put_number(hit, out);
    out.put(b" of ");
    put_number(found, out);
    out.put(b" ");
    put_bar(hit, found, out);
}
