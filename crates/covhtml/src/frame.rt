//! Prints what each page begins with.

ghost use Rattle.std.specs.Prelude.{◌≡◌, ◌++◌};
ghost use Rattle.covhtml.specs.Frame.{head, heading};

use crate::markup::{BODY, HEAD};
use crate::shown::put_shown;
use covreport::Printer;

/// Prints everything up to the page's body. `title` is the title of the window.
pub(crate) fn put_head<P: Printer>(title: &[u8], out: &mut P)
    ensures { P.text out.new ≡ P.text out.old ++ head title.now }
{
    out.put(HEAD);
    put_shown(title, out);
    out.put(BODY);
}

/// Prints the page's heading.
pub(crate) fn put_heading<P: Printer>(title: &[u8], out: &mut P)
    ensures { P.text out.new ≡ P.text out.old ++ heading title.now }
{
    out.put(b"<h1>");
    put_shown(title, out);
    out.put(b"</h1>\n");
}
