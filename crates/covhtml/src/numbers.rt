//! Prints decimal numbers.

ghost use Rattle.std.specs.Prelude.{◌≡◌, ◌++◌, decimal};
ghost use Rattle.covhtml.specs.Rates.{numbers};

use covreport::Printer;
use itoa::Buffer;

/// Prints a number in decimal.
pub(crate) fn put_number<P: Printer>(number: u64, out: &mut P)
    ensures { P.text out.new ≡ P.text out.old ++ decimal number }
{
    let mut digits = Buffer::new();
    out.put(digits.format(number).as_bytes());
}

/// Prints a count in decimal.
pub(crate) fn put_count<P: Printer>(count: u128, out: &mut P)
    ensures { P.text out.new ≡ P.text out.old ++ decimal count }
{
    let mut digits = Buffer::new();
    out.put(digits.format(count).as_bytes());
}

/// Prints how many points are hit and found, with a slash in between.
pub(crate) fn put_numbers<P: Printer>(hit: u64, found: u64, out: &mut P)
    ensures { P.text out.new ≡ P.text out.old ++ numbers hit found }
{
    put_number(hit, out);
    out.put(b"/");
    put_number(found, out);
}
