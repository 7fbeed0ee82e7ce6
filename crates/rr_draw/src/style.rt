//! What a picture begins with: its colours in light and dark, its glyphs and its legend.

/// Colours, lines and letters.
pub(crate) const STYLE: &[u8] = b"<style>
svg{--ink:#1f2328;--dim:#8c959f;--paper:#fff;--est:#0969da;--pro:#8250df;--ack:#1a7f37;--dec:#bf5700;--req:#57606a;--bad:#d1242f;--sus:#9a6700;--job:#d0d7de;background:var(--paper)}
@media(prefers-color-scheme:dark){svg{--ink:#e6edf3;--dim:#7d8590;--paper:#0d1117;--est:#58a6ff;--pro:#bc8cff;--ack:#3fb950;--dec:#f0883e;--req:#9198a1;--bad:#ff7b72;--sus:#d29922;--job:#30363d}}
text{font:8px system-ui,sans-serif;fill:var(--ink)}
.h{font-size:11px;font-weight:600;text-anchor:middle}
.r{text-anchor:end}.g{fill:var(--dim)}
path,line,circle,rect{fill:none;stroke:var(--ink);stroke-width:.9}
.up{stroke-width:1.6}.op{stroke-width:1.6;stroke-dasharray:2 2}
.j{fill:var(--job);stroke:var(--dim);stroke-width:.6}.w{fill:var(--paper);stroke:var(--dim);stroke-width:.6;stroke-dasharray:3 1.5}
.b{stroke:var(--bad);stroke-width:1.5}text.b,tspan.b{fill:var(--bad);stroke:none}
.v{stroke:var(--sus);stroke-width:1.3}text.v{fill:var(--sus)}.f{fill:var(--dim);stroke:none}
.e{stroke:var(--est)}.p{stroke:var(--pro)}.a{stroke:var(--ack)}.d{stroke:var(--dec)}.q{stroke:var(--req)}.o{stroke:var(--dim)}
text.e,tspan.e{fill:var(--est);stroke:none}text.p,tspan.p{fill:var(--pro);stroke:none}text.a,tspan.a{fill:var(--ack);stroke:none}text.d,tspan.d{fill:var(--dec);stroke:none}
text.q,tspan.q{fill:var(--req);stroke:none}text.o,tspan.o{fill:var(--dim);stroke:none}
.again{stroke-dasharray:4 2}.n{fill:var(--ink)}.z{stroke:var(--job);stroke-dasharray:1 3}.k{fill:var(--dec);stroke:none}
.x{fill:transparent;stroke:none}g:hover>line,g:hover>path{stroke-width:2.4}
text.l{stroke:var(--paper);stroke-width:3px;paint-order:stroke;pointer-events:none}
</style>
<defs>
<marker id=\"m\" viewBox=\"0 0 6 6\" refX=\"6\" refY=\"3\" markerWidth=\"5\" markerHeight=\"5\" orient=\"auto\"><path d=\"M0 .6 6 3 0 5.4z\" style=\"fill:context-stroke;stroke:none\"/></marker>
<path id=\"x\" class=\"b\" d=\"M-4-4 4 4M4-4-4 4\"/>
<path id=\"s\" class=\"q\" d=\"M-9-3-3 0-9 3z\"/>
<path id=\"k\" class=\"k\" d=\"M0-4 4 0 0 4-4 0z\"/>
<path id=\"t\" class=\"a\" d=\"M3-3 9 0 3 3z\"/>
<path id=\"n\" class=\"b\" d=\"M-3 0A3 3 0 1 1 3 0A3 3 0 1 1-3 0M-3 0H3\"/>
<path id=\"y\" class=\"b\" d=\"M-5 0A5 5 0 1 1 5 0A5 5 0 1 1-5 0M-5 0H5\"/>
<path id=\"v\" class=\"v\" d=\"M0-4 4 3-4 3zM0-1V1\"/>
<path id=\"u\" class=\"n\" d=\"M-4-2 0 3 4-2z\"/>
</defs>
";

/// How wide the legend is.
pub(crate) const LEGEND_WIDTH: u64 = 500;

/// What the marks mean.
pub(crate) const LEGEND: &[u8] =
    b"<text x=\"4\" y=\"10\"><tspan class=\"e\">estimate</tspan>, <tspan class=\"p\">proposal</tspan>, <tspan class=\"a\">ack</tspan>, <tspan class=\"d\">decision</tspan>, <tspan class=\"q\">request</tspan>, <tspan class=\"o\">others</tspan>; dot at an end: not heard; dashed: heard again; small dot: folded</text>
<text x=\"16\" y=\"20\">asked</text><use href=\"#s\" x=\"13\" y=\"17\"/><text x=\"54\" y=\"20\">replied</text><use href=\"#t\" x=\"42\" y=\"17\"/><text x=\"100\" y=\"20\">opens, open</text><use href=\"#u\" x=\"93\" y=\"17\"/><text x=\"167\" y=\"20\">decided</text><use href=\"#k\" x=\"160\" y=\"17\"/><text x=\"217\" y=\"20\">suspects</text><use href=\"#v\" x=\"210\" y=\"17\"/><text x=\"272\" y=\"20\">refused</text><use href=\"#n\" x=\"265\" y=\"17\"/><text x=\"324\" y=\"20\">a call fails</text><use href=\"#y\" x=\"316\" y=\"17\"/><text x=\"388\" y=\"20\">crash</text><use href=\"#x\" x=\"381\" y=\"17\"/>
<text x=\"4\" y=\"30\">box: flush, with device calls and facts; dashed box: snapshot; Adopt 0.1: instance 0, round 1; 7.1: client 7, request 1</text>
";
