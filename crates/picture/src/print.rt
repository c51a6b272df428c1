//! The text of a picture.
ghost use Rattle.std.specs.Prelude.{◌≡◌, ◌++◌, Some, IfOk, OnErr, OnOk, string_bytes};
ghost use Rattle.std.specs.Fmt.{decimal, signed_decimal};
ghost use Rattle.std.specs.List.{flat_map};
ghost use Rattle.picture.specs.Spelling.{IsBody, IsPicture, Pictures, at, band_title, coloured, depth, label, page, patterned, placed, rectangles, sized, spelled, spelled_band, spelled_content, spelled_line, spelled_name, spelled_piece, spelled_text, users_label};

use crate::element::{Band, Content, Element, Extent, Look, Piece, Place};
use crate::words::{Style, Title, Word};
use crate::{push_escaped, push_start};
use std::alloc::{AllocError, Global};

/// The page of a title that has pictures, one below the other, as the calls that draw them wrote them, and ends this far below
/// its top.
#[tactic(auto, unfolding(crate::specs::Spelling::page, crate::specs::Spelling::IsPicture))]
pub fn page(alloc: Global, title: Title, height: u64, pictures: &str) -> Result<String, AllocError>
    ensures { IfOk result (λ s. (ps : Pictures) → IsBody ps pictures.now → height ≡ depth ps → IsPicture title ps (string_bytes s)) }
{
    let text = page_text(alloc, title, height, pictures)?;
    Ok(text)
}

#[tactic(auto, unfolding(crate::specs::Spelling::page))]
fn page_text(alloc: Global, title: Title, height: u64, pictures: &str) -> Result<String, AllocError>
    ensures { IfOk result (λ s. string_bytes s ≡ page title height pictures.now) }
{
    let mut out = String::new(alloc);
    write!(
        out,
        "<svg xmlns=\"http://www.w3.org/2000/svg\" role=\"img\" viewBox=\"0 0 1200 {height}\">\n<title>"
    )?;
    out.push_str(title.text())?;
    out.push_str("</title>\n")?;
    out.push_str(HEAD)?;
    out.push_str(pictures)?;
    out.push_str("</svg>\n")?;
    Ok(out)
}

/// Adds the elements of a picture, so far below the top of its page; nothing where memory runs out.
pub(crate) fn place(
    alloc: Global,
    out: &mut String,
    y: u64,
    elements: &[Element<'_>],
) -> Result<(), AllocError>
    ensures all { OnOk result (string_bytes out.new ≡ string_bytes out.old ++ placed y elements.now) }
    ensures none { OnErr result (string_bytes out.new ≡ string_bytes out.old) }
{
    let text = placed(alloc, y, elements)?;
    out.push_str(text.as_str())
}

/// The elements of a picture, so far below the top of its page.
#[tactic(auto, unfolding(crate::specs::Spelling::placed))]
fn placed(alloc: Global, y: u64, elements: &[Element<'_>]) -> Result<String, AllocError>
    ensures { IfOk result (λ s. string_bytes s ≡ placed y elements.now) }
{
    let mut text = String::new(alloc);
    write!(text, "<g transform=\"translate(0 {y})\">\n")?;
    push_all(&mut text, elements)?;
    text.push_str("</g>\n")?;
    Ok(text)
}

fn push_all(out: &mut String, elements: &[Element<'_>]) -> Result<(), AllocError>
    ensures { OnOk result (string_bytes out.new ≡ string_bytes out.old ++ flat_map spelled elements.now) }
{
    for element in elements {
        push(out, element)?;
    }
    Ok(())
}

fn push(out: &mut String, element: &Element<'_>) -> Result<(), AllocError>
    ensures { OnOk result (string_bytes out.new ≡ string_bytes out.old ++ spelled element.now) }
{
    match element {
        Element::Text(style, place, content) => push_text(out, *style, *place, *content),
        Element::Name(place, size, name) => push_name(out, *place, *size, name),
        Element::Piece(piece) => push_piece(out, piece),
        Element::Band(band) => push_band(out, band),
        Element::Line(place, extent) => push_line(out, *place, *extent),
    }
}

#[tactic(auto, unfolding(crate::specs::Spelling::spelled_text))]
fn push_text(
    out: &mut String,
    style: Style,
    place: Place,
    content: Content,
) -> Result<(), AllocError>
    ensures { OnOk result (string_bytes out.new ≡ string_bytes out.old ++ spelled_text style place content) }
{
    let class = style.class();
    write!(out, "<text class=\"{class}\"")?;
    push_at(out, place)?;
    out.push_str(">")?;
    push_content(out, content)?;
    out.push_str("</text>\n")
}

#[tactic(auto, unfolding(crate::specs::Spelling::spelled_name))]
fn push_name(out: &mut String, place: Place, size: u64, name: &str) -> Result<(), AllocError>
    ensures { OnOk result (string_bytes out.new ≡ string_bytes out.old ++ spelled_name place size name.now) }
{
    write!(out, "<text class=\"r\" style=\"font-size:{size}px\"")?;
    push_at(out, place)?;
    out.push_str(">")?;
    push_escaped(out, name)?;
    out.push_str("</text>\n")?;
    Ok(())
}

#[tactic(auto, unfolding(crate::specs::Spelling::spelled_piece))]
fn push_piece(out: &mut String, piece: &Piece<'_>) -> Result<(), AllocError>
    ensures { OnOk result (string_bytes out.new ≡ string_bytes out.old ++ spelled_piece piece.now) }
{
    out.push_str("<g><title>")?;
    push_escaped(out, piece.name)?;
    out.push_str("</title>")?;
    push_rectangles(out, piece.look, piece.place, piece.extent)?;
    push_label(out, piece)?;
    out.push_str("</g>\n")
}

#[tactic(auto, unfolding(crate::specs::Spelling::label))]
fn push_label(out: &mut String, piece: &Piece<'_>) -> Result<(), AllocError>
    ensures { OnOk result (string_bytes out.new ≡ string_bytes out.old ++ label piece.now) }
{
    if piece.label == 0 {
        return Ok(());
    }
    out.push_str("<text class=\"l\" dx=\"8\" dy=\"50\"")?;
    push_at(out, piece.place)?;
    out.push_str(">")?;
    push_start(out, piece.name, piece.label)?;
    out.push_str("</text>")
}

#[tactic(auto, unfolding(crate::specs::Spelling::spelled_band))]
fn push_band(out: &mut String, band: &Band<'_>) -> Result<(), AllocError>
    ensures { OnOk result (string_bytes out.new ≡ string_bytes out.old ++ spelled_band band.now) }
{
    push_band_title(out, band)?;
    push_rectangles(out, band.look, band.place, band.extent)?;
    push_users(out, band.label, band.users)?;
    out.push_str("</g>\n")
}

#[tactic(auto, unfolding(crate::specs::Spelling::band_title))]
fn push_band_title(out: &mut String, band: &Band<'_>) -> Result<(), AllocError>
    ensures { OnOk result (string_bytes out.new ≡ string_bytes out.old ++ band_title band.now) }
{
    let points = band.points;
    let users = band.users;
    out.push_str("<g><title>")?;
    push_escaped(out, band.from)?;
    out.push_str(" &#8594; ")?;
    push_escaped(out, band.to)?;
    write!(out, ": {points} points, {users} users</title>")
}

#[tactic(auto, unfolding(crate::specs::Spelling::users_label))]
fn push_users(out: &mut String, label: Option<Place>, users: u64) -> Result<(), AllocError>
    ensures { OnOk result (string_bytes out.new ≡ string_bytes out.old ++ users_label label users) }
{
    match label {
        Some(place) => push_users_at(out, place, users),
        None => Ok(()),
    }
}

#[tactic(auto, unfolding(crate::specs::Spelling::users_label))]
fn push_users_at(out: &mut String, place: Place, users: u64) -> Result<(), AllocError>
    ensures { OnOk result (string_bytes out.new ≡ string_bytes out.old ++ users_label (Some place) users) }
{
    out.push_str("<text class=\"l\" dx=\"8\" dy=\"50\"")?;
    push_at(out, place)?;
    write!(out, ">{users}</text>")
}

#[tactic(auto, unfolding(crate::specs::Spelling::spelled_line))]
fn push_line(out: &mut String, place: Place, extent: Extent) -> Result<(), AllocError>
    ensures { OnOk result (string_bytes out.new ≡ string_bytes out.old ++ spelled_line place extent) }
{
    out.push_str("<rect class=\"s\"")?;
    push_at(out, place)?;
    push_extent(out, extent)
}

#[tactic(auto, unfolding(crate::specs::Spelling::rectangles))]
fn push_rectangles(
    out: &mut String,
    look: Look,
    place: Place,
    extent: Extent,
) -> Result<(), AllocError>
    ensures { OnOk result (string_bytes out.new ≡ string_bytes out.old ++ rectangles look place extent) }
{
    push_coloured(out, look, place, extent)?;
    push_patterned(out, look, place, extent)
}

#[tactic(auto, unfolding(crate::specs::Spelling::coloured))]
fn push_coloured(
    out: &mut String,
    look: Look,
    place: Place,
    extent: Extent,
) -> Result<(), AllocError>
    ensures { OnOk result (string_bytes out.new ≡ string_bytes out.old ++ coloured look place extent) }
{
    let colour = look.colour;
    write!(out, "<rect class=\"c{colour}\"")?;
    push_at(out, place)?;
    push_extent(out, extent)
}

#[tactic(auto, unfolding(crate::specs::Spelling::patterned))]
fn push_patterned(
    out: &mut String,
    look: Look,
    place: Place,
    extent: Extent,
) -> Result<(), AllocError>
    ensures { OnOk result (string_bytes out.new ≡ string_bytes out.old ++ patterned look place extent) }
{
    let pattern = look.pattern;
    write!(out, "<rect fill=\"url(#p{pattern})\"")?;
    push_at(out, place)?;
    push_extent(out, extent)?;
    Ok(())
}

#[tactic(auto, unfolding(crate::specs::Spelling::at))]
fn push_at(out: &mut String, place: Place) -> Result<(), AllocError>
    ensures { OnOk result (string_bytes out.new ≡ string_bytes out.old ++ at place) }
{
    let x = place.x;
    let y = place.y;
    write!(out, " x=\"{x}\" y=\"{y}\"")
}

#[tactic(auto, unfolding(crate::specs::Spelling::sized))]
fn push_extent(out: &mut String, extent: Extent) -> Result<(), AllocError>
    ensures { OnOk result (string_bytes out.new ≡ string_bytes out.old ++ sized extent) }
{
    let width = extent.width;
    let height = extent.height;
    write!(out, " width=\"{width}\" height=\"{height}\"/>")
}

#[tactic(auto, unfolding(crate::specs::Spelling::spelled_content))]
fn push_content(out: &mut String, content: Content) -> Result<(), AllocError>
    ensures { OnOk result (string_bytes out.new ≡ string_bytes out.old ++ spelled_content content) }
{
    match content {
        Content::Word(word) => out.push_str(word.text()),
        Content::Number(n) => push_number(out, n),
        Content::Counted(word, n) => {
            out.push_str(word.text())?;
            write!(out, ": {n}")
        }
        Content::Signed(z) => push_signed(out, z),
        Content::Price(Some(n)) => push_number(out, n),
        Content::Price(None) => out.push_str(Word::NotAllowed.text()),
    }
}

fn push_number(out: &mut String, n: u64) -> Result<(), AllocError>
    ensures { OnOk result (string_bytes out.new ≡ string_bytes out.old ++ decimal n) }
{
    write!(out, "{n}")
}

fn push_signed(out: &mut String, z: i64) -> Result<(), AllocError>
    ensures { OnOk result (string_bytes out.new ≡ string_bytes out.old ++ signed_decimal z) }
{
    write!(out, "{z}")
}

/// The style sheet with the colours of both schemes and the patterns, and the ground.
const HEAD: &str = r##"<style>
svg{color-scheme:light dark;--paper:#fff;--ink:#1b1b1b;--soft:#5c5c5c;--mark:#0009}
@media(prefers-color-scheme:dark){svg{--paper:#171717;--ink:#f4f4f4;--soft:#b4b4b4;--mark:#000a}}
text{font:28px system-ui,"Segoe UI",Roboto,"Noto Sans",Arial,sans-serif;fill:var(--ink);unicode-bidi:plaintext;white-space:pre}
.t{font-size:44px;font-weight:700}.h{font-size:30px;font-weight:600;fill:var(--soft)}
.v{text-anchor:end;font-variant-numeric:tabular-nums}
.l{font-size:30px;font-weight:600;paint-order:stroke;stroke:var(--paper);stroke-width:9px;stroke-linejoin:round}
.b{fill:var(--paper)}.s{fill:var(--soft)}
.c0{fill:#e69f00}.c1{fill:#56b4e9}.c2{fill:#009e73}.c3{fill:#f0e442}.c4{fill:#3f7fd0}.c5{fill:#d55e00}.c6{fill:#cc79a7}.c7{fill:#a0a0a0}
pattern path{stroke:var(--mark);stroke-width:4;fill:none}pattern circle{fill:var(--mark)}
</style>
<defs>
<pattern id="p0" width="20" height="20" patternUnits="userSpaceOnUse"><path d="M-5 5L5 -5M0 20L20 0M15 25L25 15"/></pattern>
<pattern id="p1" width="20" height="20" patternUnits="userSpaceOnUse"><circle cx="10" cy="10" r="4"/></pattern>
<pattern id="p2" width="20" height="20" patternUnits="userSpaceOnUse"><path d="M0 10H20"/></pattern>
<pattern id="p3" width="20" height="20" patternUnits="userSpaceOnUse"><path d="M-5 15L5 25M0 0L20 20M15 -5L25 5"/></pattern>
<pattern id="p4" width="20" height="20" patternUnits="userSpaceOnUse"><path d="M10 0V20"/></pattern>
<pattern id="p5" width="20" height="20" patternUnits="userSpaceOnUse"><path d="M0 0L20 20M0 20L20 0"/></pattern>
<pattern id="p6" width="20" height="20" patternUnits="userSpaceOnUse"><path d="M10 0V20M0 10H20"/></pattern>
<pattern id="p7" width="20" height="20" patternUnits="userSpaceOnUse"/>
</defs>
<rect class="b" width="100%" height="100%"/>
"##;
