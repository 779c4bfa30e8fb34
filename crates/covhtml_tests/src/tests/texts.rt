//! Texts as pages show them.

use super::collected::Collected;
use std::process::Abort;
use std::test::*;

/// Checks how a text is shown.
fn check_shown(rt: &(impl Abort + AllocGlobal), text: &[u8], wanted: &[u8]) {
    let mut printer = Collected::new(rt.alloc());
    covhtml::put_shown(text, &mut printer);
    printer.check(rt, wanted);
}

#[test]
fn markup(rt: HostRuntime) {
    check_shown(&rt, b"", b"");
    check_shown(&rt, b"\treturn a;", b"\treturn a;");
    check_shown(
        &rt,
        b"a < b && c > \"d\" + 'e'",
        b"a &lt; b &amp;&amp; c &gt; &quot;d&quot; + 'e'",
    );
    check_shown(&rt, b"&lt;", b"&amp;lt;");
    check_shown(&rt, b"</td><script>", b"&lt;/td&gt;&lt;script&gt;");
}

#[test]
fn control_bytes(rt: HostRuntime) {
    check_shown(&rt, b"\x1b[1m", b"\xe2\x90\x9b[1m");
    check_shown(
        &rt,
        b"\0\r\x1f\x7f\n",
        b"\xe2\x90\x80\xe2\x90\x8d\xe2\x90\x9f\xe2\x90\xa1\xe2\x90\x8a",
    );
}

#[test]
fn bytes_that_are_not_utf8(rt: HostRuntime) {
    check_shown(&rt, b"\xc3\xa9\xe2\x82\xac", b"\xc3\xa9\xe2\x82\xac");
    check_shown(&rt, b"caf\xe9", b"caf\xef\xbf\xbd");
    check_shown(
        &rt,
        b"\xff\xfe<\xc3\xa9",
        b"\xef\xbf\xbd\xef\xbf\xbd&lt;\xc3\xa9",
    );
    check_shown(&rt, b"\xe2\x82>", b"\xef\xbf\xbd&gt;");
}
