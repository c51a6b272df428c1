//! Texts as character data of XML.
use crate::rows::each;
use picture::escaped;
use std::alloc::Global;
use std::test::Fail;

/// Whether a text is escaped so.
fn escapes(alloc: Global, text: &str, want: &str) -> bool {
    match escaped(alloc, text) {
        Ok(data) => data.as_str() == want,
        Err(_) => false,
    }
}

const TEXTS: &str = "plain -> plain
<a & b> -> &lt;a &amp; b&gt;
\"it's\" -> &quot;it&apos;s&quot;
&amp; -> &amp;amp;
]]> -> ]]&gt;
\u{1}\t\u{fffe}é -> \u{fffd}\t\u{fffd}é";

#[test]
fn texts_are_escaped(rt: HostRuntime) -> Result<(), Fail> {
    each(rt.alloc(), TEXTS, escapes)
}
