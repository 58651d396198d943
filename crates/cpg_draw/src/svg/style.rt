//! How the shapes look, in light and in dark.

/// The style sheet, the head of arrows, the paper, and a key to the kinds of arrows: what follows the picture's opening.
///
/// The three kinds of arrows differ without their colors: data is solid, data that is served again is dashed and
/// thick, the token is dotted.
pub(crate) const STYLE: &str = "<title>A schedule of cpgring</title>
<style>
text{font:12px ui-monospace,Menlo,Consolas,'DejaVu Sans Mono',monospace;fill:#222}
rect{fill:#fff}
circle,.tip{fill:#222;stroke:none}
path{fill:none;stroke:#aaa}
.foot{stroke:#222;stroke-width:2.2}
g path{stroke:#e6e6e6}
g g text{font-size:10px;paint-order:stroke;stroke:#fff;stroke-width:4px}
.data path{stroke:#1766c0;stroke-width:1.6;marker-start:url(#foot);marker-end:url(#tip)}
.again path{stroke:#b8480a;stroke-width:2.6;stroke-dasharray:9 4;marker-start:url(#foot);marker-end:url(#tip)}
.token path{stroke:#666;stroke-width:1.3;stroke-dasharray:1.5 3.5;marker-start:url(#foot);marker-end:url(#tip)}
.key path{marker-end:url(#end)}
.lost path{stroke:#c01818;stroke-width:1.5;stroke-dasharray:none;marker-start:none;marker-end:none}
.way path{stroke:#0b7a66;stroke-width:1.5;stroke-dasharray:none;marker-start:none;marker-end:none}
.lost g text{fill:#c01818}
.way g text{fill:#0b7a66}
.left text{text-anchor:end}
.head text{text-anchor:middle;font-size:12px;font-weight:bold}
@media(prefers-color-scheme:dark){
text{fill:#ddd}
rect{fill:#17191c}
circle,.tip{fill:#ddd}
path{stroke:#5a5e64}
.foot{stroke:#ddd}
g path{stroke:#2b2e33}
g g text{stroke:#17191c}
.data path{stroke:#6aaaf5}
.again path{stroke:#f0a060}
.token path{stroke:#a4a8ae}
.lost path{stroke:#ff7a7a}
.way path{stroke:#52cbb2}
.lost g text{fill:#ff7a7a}
.way g text{fill:#52cbb2}
}
</style>
<defs>
<marker id='tip' viewBox='0 0 8 8' refX='12' refY='4' markerWidth='8' markerHeight='8' markerUnits='userSpaceOnUse' orient='auto'><path class='tip' d='M0 0L8 4L0 8z'/></marker>
<marker id='end' viewBox='0 0 8 8' refX='4' refY='4' markerWidth='8' markerHeight='8' markerUnits='userSpaceOnUse' orient='auto'><path class='tip' d='M0 0L8 4L0 8z'/></marker>
<marker id='foot' viewBox='0 0 16 4' refX='0' refY='2' markerWidth='16' markerHeight='4' markerUnits='userSpaceOnUse' orient='auto'><path class='foot' d='M0 2H16'/></marker>
</defs>
<rect width='100%' height='100%'/>
<g class='data key'><path d='M24 20H72'/><text x='84' y='24'>data</text></g>
<g class='again key'><path d='M152 20H200'/><text x='212' y='24'>data served again</text></g>
<g class='token key'><path d='M376 20H424'/><text x='436' y='24'>token</text></g>
<g class='lost'><path d='M496 20H518m-6-6l12 12m0-12l-12 12'/><text x='532' y='24'>lost</text></g>
<g class='way'><path d='M584 20H602l6-6 6 6-6 6-6-6'/><text x='622' y='24'>under way</text></g>
";
