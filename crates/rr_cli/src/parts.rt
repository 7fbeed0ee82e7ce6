//! The parts of a page that are the same in all, but for its script. `web/embed.py` makes this file of those beside it.

/// The page up to the data of the run.
pub(crate) const FRONT: &[u8] = b"<!doctype html>
<html lang=\"en\">
<head>
<meta charset=\"utf-8\">
<meta name=\"viewport\" content=\"width=device-width, initial-scale=1\">
<title>A run of a cluster</title>
<style>
:root{color-scheme:light dark;--page:#fff;--side:#f6f8fa;--rule:#d0d7de;--words:#1f2328;--faint:#59636e;--link:#0550ae;--past:#0b7a75;--future:#b5179e;--here:#ffd000}
@media(prefers-color-scheme:dark){:root{--page:#0d1117;--side:#161b22;--rule:#30363d;--words:#e6edf3;--faint:#9198a1;--link:#79c0ff;--past:#2dd4bf;--future:#f472d0;--here:#ffe066}}
*{box-sizing:border-box}
body{margin:0;height:100vh;display:flex;flex-direction:column;background:var(--page);color:var(--words);font:14px/1.4 system-ui,sans-serif}
header{display:flex;flex-wrap:wrap;gap:.4rem 1rem;align-items:center;padding:.4rem .8rem;background:var(--side);border-bottom:1px solid var(--rule)}
h1{font-size:1rem;margin:0}h2{font-size:.95rem;margin:.2rem 0}
form{display:flex;flex-wrap:wrap;gap:.3rem .6rem;align-items:center}
input,select,button{font:inherit;color:inherit;background:var(--page);border:1px solid var(--rule);border-radius:4px;padding:.1rem .4rem}
:focus-visible{outline:2px solid var(--link);outline-offset:1px}
main{flex:1;min-height:0;display:grid;grid-template-columns:minmax(0,1fr) 24rem}
#run{display:flex;flex-direction:column;min-height:0;min-width:0}
#legend{display:flex;flex-wrap:wrap;gap:0 .7rem;padding:.2rem .5rem;font-size:11px;border-bottom:1px solid var(--rule)}
#legend svg{vertical-align:-2px;background:none}
#legend i{display:inline-block;width:.8em;height:.8em;margin-right:.3em;border:1px solid var(--words)}
#legend .e{color:var(--est)}#legend .p{color:var(--pro)}#legend .a{color:var(--ack)}#legend .d{color:var(--dec)}#legend .q{color:var(--req)}#legend .o{color:var(--dim)}
i.past{background:var(--past)}i.future{background:var(--future)}i.here{background:var(--here)}
#view{display:flex;flex:1;min-height:0}
#picture{flex:1;min-width:0;overflow:auto scroll}
#names{position:sticky;top:0;display:block;z-index:1;box-sizing:content-box;border-bottom:1px solid var(--rule)}
#sheet{position:relative}
#scene{position:absolute;left:0}
#strip{flex:none;width:40px;height:100%;border-left:1px solid var(--rule);cursor:pointer;touch-action:none}
aside{overflow:auto;padding:.4rem .8rem;background:var(--side);border-left:1px solid var(--rule)}
aside pre{white-space:pre-wrap;overflow-wrap:anywhere;margin:.3rem 0;font-size:12px}
aside p,aside ol,aside ul{margin:.2rem 0}
.past-word{color:var(--past)}.future-word{color:var(--future)}.faint{color:var(--faint)}
a{color:var(--link)}
#scene g[data-line],#scene g[data-of]{cursor:pointer}
#scene g[data-line]:focus{outline:none}
#scene.filtered>g:not(.hit),#scene.chosen>g:not(.past):not(.future):not(.here){opacity:.15}
#scene.filtered text.l,#scene.chosen text.l{opacity:.35}
#scene.narrow text.l.r,#scene.tight text.l{display:none}
#scene g.past rect.x{fill:var(--past);fill-opacity:.4}
#scene g.future rect.x{fill:var(--future);fill-opacity:.4}
#scene g.here rect.x{fill:var(--here);fill-opacity:.8;stroke:var(--words);stroke-width:.8}
@media(max-width:700px){body{height:auto}main{display:block}#run{height:75vh;border-bottom:1px solid var(--rule)}#legend{font-size:10px}aside{border-left:0}}
</style>
</head>
<body>
<header>
<h1>A run of a cluster</h1>
<form id=\"find\" role=\"search\">
<label>Search <select id=\"field\"><option value=\"any\">anything</option><option value=\"client\">client</option><option value=\"request\">request</option>
<option value=\"name\">name</option><option value=\"instance\">instance</option></select></label>
<input id=\"words\" type=\"search\" aria-label=\"What to search for\" placeholder=\"7.1\" size=\"10\" autocomplete=\"off\">
<label>node <select id=\"node\"><option value=\"\">all</option></select></label>
<label>kind <select id=\"kind\"><option value=\"\">all</option></select></label>
<label>instance <input id=\"instance\" inputmode=\"numeric\" size=\"4\" autocomplete=\"off\"></label>
<button type=\"button\" id=\"before\" title=\"the match before (p)\">previous</button>
<button type=\"submit\" title=\"the next match (n)\">next</button>
<button type=\"button\" id=\"clear\" title=\"show all again (Escape)\">clear</button>
<output id=\"count\" aria-live=\"polite\"></output>
</form>
<div role=\"group\" aria-label=\"zoom\"><button type=\"button\" id=\"out\" title=\"smaller (-)\">&minus;</button><button type=\"button\" id=\"whole\" title=\"fitted to the width (0)\">fit</button><button type=\"button\" id=\"in\" title=\"larger (+)\">+</button></div>
</header>
<script id=\"data\" type=\"application/json\">
";

/// The page between the data of the run and its picture.
pub(crate) const MIDDLE: &[u8] = b"</script>
<main>
<div id=\"run\">
<div id=\"legend\" role=\"note\" aria-label=\"legend\"><span><i class=\"here\"></i>chosen</span><span><i class=\"past\"></i>it depends on</span><span><i class=\"future\"></i>depends on it</span></div>
<div id=\"view\"><div id=\"picture\" tabindex=\"0\" role=\"region\" aria-label=\"The picture of the run. Arrow keys go from event to event.\">
<svg id=\"names\" aria-hidden=\"true\"></svg><div id=\"sheet\"><svg id=\"scene\" role=\"group\"></svg></div>
<noscript id=\"source\">
";

/// The page between its picture and its script.
pub(crate) const BACK: &[u8] = b"</noscript>
</div>
<canvas id=\"strip\" role=\"img\" aria-label=\"The whole run: decisions, crashes, and what is marked. Click or drag to go there.\" title=\"the whole run: decisions, crashes, what is marked; click or drag to go there\"></canvas>
</div></div>
<aside>
<section aria-live=\"polite\" id=\"event\"><h2>Event</h2><p>Click an event, or press the down arrow.</p></section>
<section id=\"decided\"><h2>Decided commands</h2><ol start=\"0\"></ol></section>
<section><h2>Keys</h2><p><kbd>&darr;</kbd> <kbd>&uarr;</kbd> next and previous event; <kbd>n</kbd> <kbd>p</kbd> next and previous match; <kbd>/</kbd> search; <kbd>+</kbd> <kbd>-</kbd> <kbd>0</kbd> zoom;
<kbd>Escape</kbd> shows all.</p></section>
</aside>
</main>
<script>
";

/// The page behind its script.
pub(crate) const END: &[u8] = b"</script>
</body>
</html>
";
